//! Which numbers are marked: a list that grows as far as it must.
ghost use Rattle.std.specs.Prelude.{◌≡◌, ℕ, ◌||◌, nat_eq, IfOk, OnOk};
ghost use Rattle.il_types.specs.Prelude.{marked, is_given};

use crate::site::Definer;
use il_ast::Class;
use std::alloc::{AllocError, Global};

/// Whether a number is marked.
pub fn is_marked(marks: &[bool], number: usize) -> bool
    ensures { result ≡ marked marks.now number }
{
    match marks.get(number) {
        Some(mark) => *mark,
        None => false,
    }
}

/// Marks a number.
pub fn mark(marks: &mut Vec<bool>, number: usize) -> Result<(), AllocError>
    ensures { OnOk result ((t : ℕ) → marked marks.new.items t ≡ (nat_eq number t || marked marks.old.items t)) }
{
    while marks.len() <= number {
        marks.push(false)?;
    }
    marks[number] = true;
    Ok(())
}

/// The temporaries that are assigned with a class.
pub fn given(alloc: Global, definers: &[Definer], class: Class) -> Result<Vec<bool>, AllocError>
    ensures { IfOk result (λ marks. (t : ℕ) → marked marks.items t ≡ is_given class t definers.now) }
{
    let mut marks = Vec::with_capacity(alloc, definers.len())?;
    for definer in definers {
        if definer.class == class {
            mark(&mut marks, definer.temp.number())?;
        }
    }
    Ok(marks)
}
