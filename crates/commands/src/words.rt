//! The words that a process is given.
ghost use Rattle.std.specs.Prelude.{◌≡◌, map, drop, IfOk, string_bytes};

use std::alloc::{AllocError, Global};

fn texts(alloc: Global, list: &[String]) -> Result<Vec<&str>, AllocError>
    ensures { IfOk result (λ v. map (λ w. w.now) v.items ≡ map string_bytes list.now) }
{
    let mut texts = Vec::new(alloc);
    for text in list {
        texts.push(text.as_str())?;
    }
    Ok(texts)
}

/// The words after the first, which is the program's name.
///
/// # Errors
///
/// Only where memory was refused.
pub fn words_of(alloc: Global, args: &[String]) -> Result<Vec<&str>, AllocError>
    ensures { IfOk result (λ v. map (λ w. w.now) v.items ≡ map string_bytes (drop 1 args.now)) }
{
    match args {
        [_name, words @ ..] => texts(alloc, words),
        [] => Ok(Vec::new(alloc)),
    }
}
