//! # The edges of qbec
//!
//! Where bytes come from and go to, and what a disassembly shows.
//!
//! - [`sink::Sink`] is what takes bytes: a file, a standard stream, or memory. Its laws say how many bytes a call took, which ones, and how often a call failed.
//! - [`memory::MemorySink`] is one in memory, which takes as many bytes a call as its maker says, and fails at the call that its maker says.
//! - [`write_exe::write_exe`] writes all bytes to any sink, whatever the sink does; a fault tells how many went out, and comes only where the sink failed.
//!   [`write_exe::write_parts`] does so with several parts, one after another.
//! - [`disk::Disk`] reads and writes files. Its laws say what it read and wrote, as far as it tells what its files hold, and which
//!   calls failed.
//! - [`memory_disk::MemoryDisk`] is one in memory, which tells.
//! - [`system::host_files::HostFiles`] is the disk of the system. The files of the system tell nothing of what they hold, so its laws say which calls failed, and no more.
//! - [`system::stream::Stream`] is any writer as a sink, as a stream of the system: it tells what the writer holds, where that is known.
//! - [`digits::sixteen_digits`] shows a number in hexadecimal.
//! - [`dis_lines::dis_lines`] gives exactly the lines of a disassembly, as `specs/Lines.antt` says them.
//!
//! The crate stands on `elf_file` for loaded files, on `rv_isa` for instructions and their texts, and on `thiserror`.
#![tactic(auto)]

pub mod digits;
pub mod dis_lines;
pub mod disk;
pub mod memory;
pub mod memory_disk;
pub mod sink;
pub mod system;
pub mod write_exe;

pub use disk::{Access, Disk, Faults, FileFault};
pub use memory::MemorySink;
pub use memory_disk::MemoryDisk;
pub use sink::{Sink, SinkFault};
pub use system::host_files::HostFiles;
pub use system::stream::Stream;
pub use write_exe::WriteFault;
