//! Where a set keeps its words.
ghost use Rattle.std.specs.Prelude.{◌≡◌, ℕ, length, false, IfOk};
ghost use Rattle.bitset.specs.Bits.{is_set};
ghost use Rattle.bitset.specs.Kept.{kept_words};

use std::alloc::{AllocError, Global};

/// The words of a set: one word stands in the value itself, and others on the heap.
#[derive(Drop)]
pub(crate) enum Kept {
    One([u64; 1]),
    Many(Vec<u64>),
}

impl Kept {
    /// The words.
    pub(crate) fn words(&self) -> &[u64]
        ensures { result.now ≡ kept_words self.now }
    {
        match self {
            Kept::One(words) => words,
            Kept::Many(words) => words,
        }
    }
}

/// `count` words with no number.
pub(crate) fn no_words(alloc: Global, count: usize) -> Result<Kept, AllocError>
    ensures number { IfOk result (λ kept. length (kept_words kept) ≡ count) }
    ensures empty { IfOk result (λ kept. (i : ℕ) → is_set (kept_words kept) i ≡ false) }
{
    if count == 1 {
        return Ok(Kept::One([0]));
    }
    let words = vec![in alloc; 0u64; count]?;
    Ok(Kept::Many(words))
}
