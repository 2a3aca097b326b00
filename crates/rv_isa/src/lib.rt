//! # The instructions of RV64IM
//!
//! The 65 instructions of RV64I and its extension M that the compiler emits and the machine runs, their words and their texts.
//!
//! - [`instruction::Instr`] is an instruction, with operands of the types of [`ranges`]: each holds the numbers that its field can hold and
//!   no others, so every `Instr` has a word.
//! - [`encode::encode`] gives the word of an instruction: exactly its row of the encoding table, `specs/Encoding.antt`.
//! - [`abi`] names the registers by their roles, the system calls and the bounds of the stack, for code and definitions alike.
//! - [`decode::decode`] gives `Some(i)` exactly for the word that the table gives for i, so that no reserved bit is ignored, and `None` for any
//!   other word.
//! - [`text::text`] gives the text of an instruction, exactly that of `specs/Text.antt`. It alone takes memory, and fails only for want of it.
//!
//! Of `fence` there is one form, that of all accesses before and after; other words of that opcode are unknown, as are compressed instructions.
//!
//! ## The machine
//!
//! `specs/` also defines the machine that runs these instructions, for whoever emits code or runs it:
//!
//! - `State`: pc, the registers, a byte and a [`permission::Permission`] for each address, and the output (`State.antt`, `Memory.antt`);
//! - `act` and `step`: what an instruction does, and the next state or the `Stop` of a state (`Arithmetic.antt`, `Step.antt`), with the faults of
//!   [`fault::Fault`] and the system calls write and exit;
//! - `runs`: that many steps, or up to the first stop, which counts as one; `Comes`: from one state to another (`Runs.antt`);
//! - `StartsWith`: the stack and the argument words at the start (`Start.antt`);
//! - `Stand`: what it means that [`labelled::Item`]s stand at an address (`Labelled.antt`).
//!
//! ## MachineCode of functions
//!
//! - [`labelled::LabelledCode`] is code with labels, whose invariants are `IsLabelled` of `specs/Labels.antt`;
//! - [`relocation::Relocation`] is an instruction of it that takes a part of a global's address as its immediate;
//! - [`relocation::Filling`] is what a word that waits for an address becomes: such an instruction, or a call by `jal`;
//! - [`code::MachineCode`] is the words made of it, with holes for addresses, whose invariants are `IsCode` of `specs/Words.antt`;
//! - `LaysOut` says that such words stand for such code wherever they are put (`Laid.antt`).
//!
//! The module [`laws`] has what is proved of them. The choices that the manual leaves to an environment: an unknown word, a fetch of bytes that may
//! not be executed and a jump to an address that is no multiple of 4 are faults; loads and stores take any address; `fence` does nothing; `ebreak` stops.
//!
//! The crate stands on `bits` and std. The formats, `specs/Formats.antt`, and the table follow the RISC-V unprivileged ISA manual.
#![tactic(auto)]

pub mod abi;
pub mod arithmetic;
pub mod code;
pub mod decode;
pub mod encode;
pub mod fault;
pub mod instruction;
pub mod labelled;
pub mod laws;
pub mod permission;
pub mod ranges;
pub mod relocation;
pub mod text;

pub use code::{Hole, MachineCode};
pub use fault::Fault;
pub use instruction::{BranchOp, ImmOp, Instr, LoadOp, RegOp, RegWOp, ShiftOp, ShiftWOp, StoreOp};
pub use labelled::{Item, LabelledCode};
pub use permission::Permission;
pub use ranges::{Amount, BranchOffset, Immediate, JumpOffset, Register, UpperField, WordAmount};
pub use relocation::{Filling, Partial, Relocation};
