//! A pass on virtual code. A number or a global name that is an operand inside a loop takes instructions at each turn, where the operation has no immediate for it.
//! [`constants::hoist_constants`] sets such a constant in a register in front of the loop, and reads that register inside. Only registers count that the function has
//! and names nowhere, as passes before this one leave them over, so that no function gets more registers.
//!
//! A [`plan::Plan`] says which register is to hold which constant, which blocks hold it, and which set it right before their jump. [`hold::with_constant`] makes the
//! function by a plan, and refuses a plan that isn't right (`specs/Held`): the register has to be spared, each block that holds the constant has to be reached by
//! way of one that sets it, and the ticks of each block have to pay for it as before. Its contract says that the code is kept, in the words of every pass, and which
//! code it makes. Only these tests carry the proof.
//!
//! Which plans are made is a guess at what saves most ([`choice`]).

pub mod choice;
pub mod constants;
pub mod hold;
pub mod plan;
mod replace;
mod right;
