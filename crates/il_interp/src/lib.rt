//! The interpreter of the intermediate language: exactly the meaning of a program.
//!
//! [`interpret::interpret`] runs a linked program with argument words for at most so many turns, and
//! answers exactly the output and the end of the program's meaning (`il_ast`, `specs/Meaning`). It
//! refuses exactly the argument words that pass a limit ([`obj_link::arguments::are_arguments`]); else only want of
//! memory stops it. It is total, whatever the program.
//!
//! The meaning is a recursion on calls. The interpreter keeps a list of activations in its place
//! (`state`), and `turn` does one turn. `specs/Machine` defines that machine, `turn::turn` is exactly
//! its step, and `proofs/Unwinding` shows that it gives what the meaning gives.
//!
//! Before a run `prepare` works out how much room each function needs, where the block of each label
//! stands, and for each edge between blocks where the arguments for it stand in the phis, so that a jump
//! and a call search for nothing; a temporary is a slot of its activation. A block of memory takes a
//! logarithm of the number of live ones.
//!
//! [`pieces::Running`] is a run in hand: it goes on by so many turns, and what it puts out can be taken between. A run can be watched: then it tells besides where
//! it stands, what it did last, and what the operands of the turn hold that is due (`trace`), which no contract promises.
//!
//! `operate::operate_one` and `operate::operate_two` are exactly the operations of the language
//! (`il_ast`, `specs/Operations`). The crate stands on `il_ast`, `il_mem`, `il_types` and `obj_link`, on
//! `smallvec` for the arguments of a call, and on `thiserror` for the texts of refusals.
#![tactic(auto)]

mod accesses;
mod call;
mod edges;
pub mod error;
mod hops;
mod instruction;
mod integers;
pub mod interpret;
mod jump;
mod native;
mod numbers;
mod object;
mod operand;
pub mod operate;
mod phi_numbers;
pub mod pieces;
mod places;
mod prepare;
mod prepared;
mod rows;
mod run;
mod slots;
mod start;
mod state;
pub mod trace;
mod turn;
