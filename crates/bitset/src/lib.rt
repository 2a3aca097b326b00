//! # Bit sets
//!
//! [`BitSet`] is a set of numbers below a length, one bit for each: made empty, added to, taken from, asked, joined with another set, and made less by one.
//!
//! Clauses see a set as `Bits` of `specs/Bits.antt`, its length and words, and speak of it by `is_member`: `insert` adds one number and no other, `remove`
//! takes out one and no other, `clear` all of them, `contains` is `is_member`, `union_into` leaves just the numbers of both sets and answers whether some
//! number came in, `minus` leaves just those of the first that are not in the second. No set holds a number of its length or above, as `len` says. Both sets
//! of `union_into` and of `minus` have one length; that is the caller's condition, as is `i < length` for `insert`, `remove` and `contains`.
//!
//! Only [`BitSet::new`] wants memory, 8 bytes for each 64 numbers where there are more than 64, and only it can fail. `union_into` goes by vectors of eight words and then, word by
//! word, over the rest; `minus` by words. That it does so is read in `src/words.rt` and promised by no clause.
//!
//! The crate stands on std alone.
#![tactic(auto)]

mod kept;
mod set;
mod words;

pub use set::BitSet;
