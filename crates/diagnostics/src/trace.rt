//! Where and why a run ended, in words.
//!
//! [`story::story`] tells of a run of the interpreter that was watched which turn was the last, with its line of the text, what its operands hold, for pointers the block of memory (how
//! many bytes it has, and where it was made), why it has no meaning or there is too little stack for it, and which calls it stands in.

mod access;
mod cause;
mod needs;
mod operation;
pub mod source;
pub mod story;
mod turn;
mod values;
