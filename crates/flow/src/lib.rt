//! # The control flow of virtual code
//!
//! What passes and the register allocator ask of the ways between blocks, each found once for a function and lent: [`graph`] has where a jump leads
//! ([`graph::successor`]), which blocks lead to each ([`graph::predecessors`]) and to which a way leads from the first ([`graph::reachable`]); [`loops`] has the loops that
//! one block alone leads into, with their blocks; [`depths`] says in how many loops each block lies, and so how often it is run by a guess.
//!
//! Where a jump leads is exact (`specs/Successors`). All else is asked by guesses alone: nothing that is proved of code rests on it, and it has no contract.
//!
//! All of it takes time and memory as there are blocks, but for the members of nested loops, of which at most 64 are counted for each block.
//!
//! The crate stands on `vcode` for the code, and on `il_ast` for short lists.
#![tactic(auto)]

pub mod depths;
pub mod graph;
pub mod loops;
