//! The memory of the intermediate language: blocks of cells, with no addresses.
//!
//! `BlockMemory` is exactly the memory of the language's definition (`il_ast`, `specs/Memory`): each
//! call does what the definition of its name does, and answers `None` where that gives none; nothing
//! changes then. Only `fresh`, `add`, `bytes` and the making of a block want memory of the machine, and a dead block keeps none.
//!
//! A cell takes two bytes: what it is, and its byte or the number of its part. The values whose parts
//! stand in a block lie in a list beside its cells, and the bytes that it was written with from its front in
//! another one, where numbers are read and written at once. Room for both is reserved when the block is made.
//! The live blocks stand in the order of their numbers, as they were made. Finding one takes a logarithm of
//! how many there are, and a step or two where none before it is dead, or none behind it.
#![tactic(auto)]

pub mod block;
mod change;
pub mod memory;
mod numbers;
mod ranges;
mod read;
mod transfer;
mod words;
mod write;
