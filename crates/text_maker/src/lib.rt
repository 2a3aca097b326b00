//! # Texts that are made piece by piece
//!
//! A [`maker::TextMaker`] takes pieces, and by [`say`] pieces with values in them, and remembers where memory was refused: so what makes a text asks once, at the end,
//! whether it has the whole of it.
//!
//! Tests and measures stand on it, and no contract does.
#![tactic(auto)]

pub mod maker;

pub use maker::TextMaker;
