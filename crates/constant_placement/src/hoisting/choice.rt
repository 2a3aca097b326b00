//! Which constants are worth a register: a guess that nothing proved rests on.
//!
//! [`choose::choose_plans`] names numbers and global names that are operands inside loops, a register for each that the function names nowhere, and the blocks that are to set
//! and to hold it, by a guess at what saves most. `regions` has the loops that hang together, `uses` what it would save to hold a constant in each of them, by the
//! instructions that a register saves at each operand (`saving`) and by how often its block is run; `named` finds the registers, and
//! `pressure` what other registers are wanted for over calls.

pub mod choose;
mod named;
mod pressure;
mod regions;
mod saving;
mod uses;
