//! # Code without dead lines
//!
//! A pass on virtual code. [`remove::remove_dead_code`] takes out of a function each line that does nothing but write a register whose value isn't used any
//! more: copies, operations and loads. Stores, calls, ticks and what makes blocks of memory stay; a block whose address isn't used loses its register.
//!
//! A walk from a block's end to its beginning keeps account of what is wanted (`wanted`); a line that goes reads nothing, so that lines that only want one another
//! go, in chains and in rings. What a block wants at its beginning is guessed by walks over all blocks until none wants more (`guess`). The guess is tested in the
//! walk that leaves the lines out: what a block wants by then has to be what was guessed (`specs/Without`). Else the function stays as it is, and where no line is dead.
//!
//! The contract says that the code is kept, in the words of every pass.
//!
//! The crate stands on `vcode` for code, on `bitset` for sets, and for the guess on `flow` for where jumps lead.
#![tactic(auto)]

mod guess;
pub mod remove;
mod wanted;
