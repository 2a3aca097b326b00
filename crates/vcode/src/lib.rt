//! # The intermediate codes between the source's tree and flat bytes
//!
//! One three-address code, generic over what its lines name as places, serves twice:
//!
//! - virtual code, [`function::VFunc`], whose places are virtual registers by number;
//! - location code, [`function::LFunc`], whose places are the machine's registers and slots of the frame, [`place::Location`].
//!
//! Its operations are those of RV64IM on two registers, and the source's comparisons as one operation each. Its values and its memory are still the source's:
//! pointers have no addresses. What a line costs of the source's turns and weight stands in lines of its own, ticks.
//!
//! `specs/` has the meaning, one for both codes, as a step into the next state or a call (`Step`), over a way to tell places apart and to say which ones a call
//! makes unknown (`Places`). A word stands sign-extended in a place and is read by its low 32 bits; where an argument or a result is claimed to stand so and
//! doesn't, the call or the return is undefined. `Regular` has what every code keeps, as invariants of the types: where jumps lead, where blocks of memory are made, and that the weight of
//! its ticks pays for the instructions that a line becomes (`Cost`).
//!
//! The crate stands on `il_ast` for values, memory and calls, and on `rv_isa` for the operations.
#![tactic(auto)]

mod blocks;
pub mod code;
pub mod cost;
pub mod function;
pub mod laws;
pub mod limits;
pub mod line;
pub mod place;
pub mod replace;

pub use code::{Block, Code};
pub use function::{LFunc, VFunc};
pub use line::{Comparison, Jump, Line, Operation};
pub use place::{Address, Argument, Destination, Extension, Location, Operand, ReturnValue};
pub use replace::Replace;
