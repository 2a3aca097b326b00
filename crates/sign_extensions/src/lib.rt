//! # Whole words
//!
//! A pass on virtual code. A word is *whole* in a register where it stands there sign-extended, by all 64 bits. [`copies::copy_whole_words`] finds the registers that hold
//! whole words (or a pointer or a function, or nothing) whatever way the code goes, and makes each extension of such a register to a word a copy of it, which other passes take
//! out. So a local that is stored as a word and read as one costs no extension, where it was an `l` temporary of the source. A word that a call or a return passes from such a
//! register is claimed to stand extended, so that it is passed as it is.
//!
//! The registers are found from the lines that write them (`marks`): at first all are marked, and a register loses its mark where some line writes it what needn't
//! be whole. Once no line does that to a marked register any more (`are_closed` in `specs/Whole`), marked registers hold whole words. Only this last test carries the proof.
//!
//! The crate stands on `vcode` for code.
#![tactic(auto)]

pub mod copies;
mod lines;
pub mod marks;
