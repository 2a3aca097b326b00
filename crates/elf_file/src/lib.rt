//! # ELF files
//!
//! An executable is an ELF64 file: [`write_image`] makes one of a linked image, and [`read_image`] reads one, from anyone, as what a machine
//! starts from, or refuses it by a number.
//!
//! - `write_image` gives exactly `file_of` of `specs/File.antt`: the file's header, a program header for the code and one for the data if there is
//!   any, the code's words on the second page, the data on the page after them. That file loads as the image, and `Stands` of `specs/Conditions.antt` says
//!   by address what that is: each word of the code, which can be executed and neither read nor written, each byte of the data, which can be read
//!   and written, and nothing else.
//! - `read_image` accepts exactly the files that keep `Loads` of `specs/Conditions.antt`, a record of conditions by the names of ELF's fields, and
//!   gives exactly the entry, addresses, flags and bytes that `Loads` tells of. What it refuses does not keep a condition that the refusal names
//!   (`specs/Conditions.antt`), but for want of memory. Bytes of the file that no header speaks of do not count. The law [`laws::loads_once`] says that a file loads as one
//!   executable at most.
//! - [`Loaded`] holds what was read. Each keeps `IsExecutable` of `specs/Conditions.antt`: segments rise without overlap between
//!   [`CODE_START`](obj_link::CODE_START) and [`IMAGE_END`](obj_link::IMAGE_END), and the program starts at an instruction's address in code.
//!   `byte_in` and `flags_in` there say, by address, which byte stands where and what it may be used for; past the file's bytes of a segment stand
//!   zeros.
//!
//! Both are linear: a segment's bytes are copied once, and the written file is made in one allocation of its size.
//!
//! Only the layout described here is read: one table of one to sixteen program headers, all `PT_LOAD`, right after the file's header, and no section
//! headers. The standards are the ELF64 object file format and the RISC-V ELF psABI (`EM_RISCV`). The crate stands on `obj_link` for the image,
//! `byteorder` for numbers in bytes and `thiserror` for the texts of refusals.
#![tactic(auto)]

mod error;
mod fields;
mod flags;
mod headers;
pub mod laws;
mod loaded;
mod push;
mod read;
mod write;

pub use error::LoadError;
pub use flags::Flags;
pub use loaded::{Loaded, Segment};
pub use read::read_image;
pub use write::write_image;
