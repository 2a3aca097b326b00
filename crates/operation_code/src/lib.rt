//! # Machine code of operations
//!
//! Which instructions an operation on registers and numbers becomes, by numbers of registers and without anything of a frame. `operation::push_operation` does an
//! operation on two registers, `compare` its comparisons. `immediate` says which operations have a form with a number in the instruction (`Form`,
//! `specs/Immediates`), so that who guesses what a number costs and who emits it ask the same functions. `constant::push_constant` puts a number into a register, in at
//! most eight instructions: from its upper part, shifted by the zeros at its end, and its low 12 bits (`specs/Constants`). `name` puts the address of a name into one.
//!
//! Each function is its definition in `specs/`, exactly; `proofs/` has what the machine does at such code (`Leading`: code that leads from a state to what follows it).
#![tactic(auto)]

pub mod compare;
pub mod constant;
pub mod fields;
pub mod immediate;
pub mod name;
pub mod operation;
