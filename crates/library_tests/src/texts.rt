//! Small texts, read and checked.
use il_reader::read::read;
use il_types::Checked;
use il_types::check::check;
use std::alloc::Global;
use std::test::Fail;

/// A program that returns 0.
pub const MAIN: &str = "export function w $main() {\n@s\nret 0\n}\n";

fn checked_text(alloc: Global, text: &str) -> Result<Checked, Fail> {
    let tree = read(alloc, text.as_bytes())?;
    Ok(check(alloc, tree)?)
}

/// The texts, read and checked.
pub fn checked(alloc: Global, texts: &[&str]) -> Result<Vec<Checked>, Fail> {
    let mut all = Vec::new(alloc);
    for text in texts {
        all.push(checked_text(alloc, *text)?)?;
    }
    Ok(all)
}
