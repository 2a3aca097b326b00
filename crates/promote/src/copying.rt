//! Copies of lists.
ghost use Rattle.std.specs.Prelude.{◌≡◌, IfOk};

use il_ast::{Name, Seq};
use std::alloc::{AllocError, Global};

/// A list with the same items.
pub fn copied<T: Copy + Drop>(alloc: Global, items: &[T]) -> Result<Seq<T>, AllocError>
    ensures { IfOk result (λ copy. copy ≡ items.now) }
{
    Ok(Seq::from_vec(Vec::from_slice(alloc, items)?))
}

/// The same names.
pub fn copied_names(alloc: Global, names: &[Name]) -> Result<Seq<Name>, AllocError>
    ensures { IfOk result (λ copy. copy ≡ names.now) }
{
    let mut copy = Vec::with_capacity(alloc, names.len())?;
    for name in names {
        copy.push(copied(alloc, name.as_slice())?)?;
    }
    Ok(Seq::from_vec(copy))
}
