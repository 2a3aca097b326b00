//! # The compiler
//!
//! [`compile::compile`] goes from the bytes of texts to the bytes of an executable file, with the registers that a strategy chooses. Its contract is the theorem of
//! the whole: whatever the bytes load as is an executable of the program that the texts are, and texts that are no program are refused, with a true reason.
//!
//! Each function goes by the passes of one table, [`passes::PASSES`], and then by the register allocator and the back end ([`pipeline`]).
//!
//! Before it, [`texts::checked_texts`] reads and checks texts; [`laws`] says that texts are at most one program, that what a refusal says is true of no program, and what
//! comes of a file that was compiled where it is read, started and run.
//!
//! [`symbols::listing::listed_file`] compiles texts too, and says where their names stand in the file that this makes.
//!
//! | Definitions | Subject |
//! |---|---|
//! | `specs/Refusals`, `specs/Refusals` | the program that texts are; what an executable file of a program is |
//! | `specs/Refusals`, `specs/Refusals` | what each refusal says; which one comes of what reading, checking and linking refuse |
//! | `specs/Pipeline`, `specs/Pipeline`, `specs/Pipeline`, `specs/Pipeline` | functions on their way to words; the program that is compiled in a program's place |
//! | `specs/Symbols`, `specs/Symbols` | where the names of a program stand in its executable; a file, and the lines that show it |
#![tactic(auto)]

pub mod candidates;
pub mod codes;
pub mod compile;
pub mod error;
pub mod laws;
pub mod passes;
pub mod pipeline;
pub mod symbols;
pub mod texts;

pub use error::CompileError;
pub use passes::{Pass, Progress};
