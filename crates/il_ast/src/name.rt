//! Names.
//!
//! A name is written once, in the list of its text or function; everything else names it by its place
//! in that list, which goes by first appearance (`Temp`, `Label`, `Symbol`).
use crate::list::Seq;

/// The bytes of a name, without the sigil before it.
pub type Name = Seq<u8>;
