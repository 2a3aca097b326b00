ghost use Rattle.std.specs.Prelude.{◌≡◌, ◌<◌, ℕ, IfOk, Bool, true, false, ◌==◌, ◌||◌, ◌&&◌, not, MatchBool};
ghost use Rattle.bitset.specs.Bits.{Grew, SameMembers, is_member};

use crate::kept::{Kept, no_words};
use crate::words::{add_number, drop_all, drop_number, has_number, minus_words, union_words};
use std::alloc::{AllocError, Global};
use std::marker::Model;

/// A set of numbers below a length that is fixed when it is made. Up to 64 numbers stand in the value itself, and more on the heap.
#[derive(Drop)]
pub struct BitSet {
    length: usize,
    kept: Kept,
}

impl Model for BitSet {
    ghost use Rattle.bitset.specs.Bits.{Bits, IsBits};
    ghost use Rattle.bitset.specs.Kept.{kept_words};

    ghost Value = { Bits };

    ghost view = { λ s. record { length = s.length; words = kept_words s.kept } };

    ghost invariant = { λ s. IsBits (record { length = s.length; words = kept_words s.kept }) };
}

impl BitSet {
    /// The empty set of numbers below `length`.
    ///
    /// # Errors
    ///
    /// Only where memory was refused.
    pub fn new(alloc: Global, length: usize) -> Result<BitSet, AllocError>
        ensures length { IfOk result (λ s. s.length ≡ length) }
        ensures empty { IfOk result (λ s. (i : ℕ) → is_member s i ≡ false) }
    {
        let kept = no_words(alloc, length.div_ceil(64))?;
        Ok(BitSet { length, kept })
    }

    /// The length: every number of the set is below it.
    pub fn len(&self) -> usize
        ensures length { result ≡ self.now.length }
        ensures below { (i : ℕ) → is_member self.now i ≡ true → i < self.now.length }
    {
        self.length
    }

    /// Whether `i` is in the set.
    pub fn contains(&self, i: usize) -> bool
        requires { i < self.now.length }
        ensures { result ≡ is_member self.now i }
    {
        has_number(self.kept.words(), i)
    }

    /// Adds `i` to the set.
    pub fn insert(&mut self, i: usize)
        requires { i < self.old.length }
        ensures length { self.new.length ≡ self.old.length }
        ensures members { (j : ℕ) → is_member self.new j ≡ (j == i || is_member self.old j) }
    {
        match &mut self.kept {
            Kept::One(words) => add_number(words, i),
            Kept::Many(words) => add_number(words, i),
        }
    }

    /// Takes `i` out of the set.
    pub fn remove(&mut self, i: usize)
        requires { i < self.old.length }
        ensures length { self.new.length ≡ self.old.length }
        ensures members { (j : ℕ) → is_member self.new j ≡ (is_member self.old j && not (j == i)) }
    {
        match &mut self.kept {
            Kept::One(words) => drop_number(words, i),
            Kept::Many(words) => drop_number(words, i),
        }
    }

    /// Takes all numbers out of the set.
    pub fn clear(&mut self)
        ensures length { self.new.length ≡ self.old.length }
        ensures empty { (i : ℕ) → is_member self.new i ≡ false }
    {
        match &mut self.kept {
            Kept::One(words) => drop_all(words),
            Kept::Many(words) => drop_all(words),
        }
    }

    /// Adds the numbers of `other`, a set of the same length, and says whether the set grew.
    pub fn union_into(&mut self, other: &BitSet) -> bool
        requires { self.old.length ≡ other.now.length }
        ensures length { self.new.length ≡ self.old.length }
        ensures members { (i : ℕ) → is_member self.new i ≡ (is_member self.old i || is_member other.now i) }

        // Where the answer is true some number came in, and where it is false none did.
        ensures grew { MatchBool result (Grew self.old.words self.new.words) (SameMembers self.old.words self.new.words) }
    {
        let others = other.kept.words();
        match &mut self.kept {
            Kept::One(words) => union_words(words, others),
            Kept::Many(words) => union_words(words, others),
        }
    }

    /// Takes out the numbers of `other`, a set of the same length.
    pub fn minus(&mut self, other: &BitSet)
        requires { self.old.length ≡ other.now.length }
        ensures length { self.new.length ≡ self.old.length }
        ensures members { (i : ℕ) → is_member self.new i ≡ (is_member self.old i && not (is_member other.now i)) }
    {
        let others = other.kept.words();
        match &mut self.kept {
            Kept::One(words) => minus_words(words, others),
            Kept::Many(words) => minus_words(words, others),
        }
    }
}
