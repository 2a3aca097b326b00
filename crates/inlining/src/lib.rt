//! # Inlining
//!
//! A pass on virtual code. [`calls::inline_calls`] does calls of inline candidates in place: of functions that make no blocks of memory and in which a turn begins
//! before each call in its block ([`candidate::is_candidate`]). The block is cut at the call: lines bring the arguments to the registers of the candidate's parameters, the candidate's
//! blocks follow with registers behind the caller's, a line takes the result where the candidate returns, and the rest of the block goes on (`specs/InPlace`,
//! `specs/InPlace`).
//!
//! A call is a call by name, and what the name's function does is not part of a function's code. So the pass keeps what the function did only where calls of
//! the candidates' names go as the candidates' code runs (`specs/InPlace`, `specs/InPlace`); it may spend less then, since no call is entered. In place the calls that a
//! candidate makes find more room on the stack than they did: so they must go just the same in more room. That this holds of one call is a law ([`laws`]).
//!
//! That the code stays code that there may be is tested where it doesn't follow (`site`, `growth`): the classes of what is passed, the registers, the weight of all ticks, and that the ticks of each block pay for
//! its lines. Which functions are candidates is a guess ([`choice`]); how far a function grows has limits (`limits`).
//!
//! The crate stands on `vcode` for the code, and for the guess on `obj_link` for programs.
#![tactic(auto)]

mod blocks;
mod brought;
pub mod calls;
pub mod candidate;
pub mod choice;
mod cut;
mod growth;
pub mod laws;
mod limits;
mod moved;
mod site;
