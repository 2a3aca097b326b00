//! # A machine that runs RV64IM programs
//!
//! [`machine::Machine`] holds a pc, the registers, a memory and what the program has put out, and runs the program of an executable file as
//! the definitions of `rv_isa` say: `step` and `runs` of its `specs/`.
//!
//! - [`Machine::start`](machine::Machine::start) gives exactly `start_state` of `specs/Steps.antt`: at the file's entry, with the argument words above the
//!   stack pointer, zeros elsewhere, and nothing mapped but the file's segments, the stack and the words. It refuses exactly the words that pass
//!   a limit, [`obj_link::arguments::are_arguments`]. That is one of the starts of `specs/Starts.antt`, which leave free what a program can't count on.
//! - [`Machine::step`](machine::Machine::step) does exactly what `step` says: it comes to that state, or stops as that stop, [`stop::Stop`], and is
//!   then as it was. Beyond that it may only stop for want of memory, where the instruction is a store and the memory
//!   refuses, or calls `write` with descriptor 1 and some bytes, and only where what it stores or puts out may be written or read; then too nothing has
//!   changed.
//! - [`Machine::run`](machine::Machine::run) gives the output and the end of `runs` with that limit, `RunEnds` of `specs/Steps.antt`: `Stop::Limit` exactly
//!   where the program has not stopped.
//!
//! What state a machine is in can be read: its pc, a register, the permission and the byte at an address, and the output.
//!
//! All of it holds over any memory that keeps the laws of [`ram::Ram`]. [`flat_ram::FlatRam`] keeps each mapped range in one vector, and never
//! refuses; [`page_ram::PageRam`] makes a page of 4096 bytes when a byte of it is first stored to.
//!
//! For speed, code that can be executed and never written is decoded once, before it runs, to entries of one flat list of operations
//! (`specs/Opcodes.antt`, `specs/Entries.antt`): such code stays as it is, whatever the program does (`specs/Entries.antt`). A run goes from entry to entry
//! by index, and memory answers whole numbers where it can. What an entry leaves, and every stop, is done by the one slow step, which works byte by byte
//! where it has to.
//!
//! The crate stands on `rv_isa` for instructions and their meaning, on `elf_file` for loaded files, on `obj_link` for the addresses of an image and on
//! `bits`, `byteorder` and `thiserror`.
#![tactic(auto)]

mod access;
mod at_once;
mod decoded;
mod enact;
mod entry;
mod entry_of;
mod fill;
pub mod flat_ram;
pub mod laws;
mod lookup;
pub mod machine;
mod opcode;
mod opcode_of;
mod page;
pub mod page_ram;
mod pages;
pub mod pieces;
pub mod ram;
mod region_list;
mod regions;
mod registers;
mod run;
pub mod start;
mod step;
pub mod stop;
pub mod table;
pub mod width;
mod words;

pub use flat_ram::FlatRam;
pub use machine::Machine;
pub use page_ram::PageRam;
pub use ram::Ram;
pub use start::StartError;
pub use stop::Stop;
pub use table::DecodedCode;
