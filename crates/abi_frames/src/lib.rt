//! # Frames: machine code for code on flat bytes
//!
//! `frame::frame` makes the machine code of a function in location code, with labels in place of addresses. A function's frame has, upward from the stack pointer
//! x2, the arguments past the eighth of the calls that it makes, the registers that it saves (x1 if it makes a call, and those of a callee that its code writes),
//! its slots, and the area for blocks of memory. A function whose frame is empty moves no stack pointer.
//!
//! Each line becomes instructions of its own: operands that are not in registers come into x28 and x29, and a value for a slot goes through x28. A number stands
//! in the instruction where that has a form for it (`operation_code::immediate`), and 0 is read from x0. Each block of memory stands behind those of the
//! lines before it. Bytes are copied through x30, eight at a time and the rest as four, two and one.
//!
//! No jump goes to the block that stands next, and a branch is turned round where its first target does (`jump`). Ticks have no instructions, so where code falls
//! from block to block all of its turns may begin between two instructions: it does only if these are at most 40,000 (`turns`). A return goes to the end of
//! the frame, behind the last block, which may fall into it. Where that end restores no more than four registers, each other return has a copy of it in place of a
//! jump, if the ticks of its block leave enough to pay for that (`jump`).
//!
//! Where ways through a function need no frame, its code is made of parts with marks (crate `frame_ways`), and machine code of those (`marks`, `specs/Functions.antt`): bare parts
//! have no frame and return where they stand, and where one leads to a framed part the frame begins. Whether the code is then within its price is found by
//! making it.
//!
//! What the code owes is `FramePromise` (`specs/Performs.antt`): in every world and wherever it stands, from every state that is ready for the call
//! (`specs/Performs.antt`, by the integer calling convention of the RISC-V ELF psABI), the machine performs what the code on bytes runs (`specs/Performs.antt`), in
//! at most 32 instructions for each unit of weight and 256 for each call, with at most 40,000 turns between two instructions; and it takes no more stack than the
//! language counts for the function. `specs/Performs.antt` says where things stand in a frame, `specs/Emission.antt` which instructions a line becomes.
//!
//! A name's address has an upper part, which `lui` makes, and a lower one, which the next instruction takes as its immediate: `addi`, or the load or the store that
//! wanted the address, or the jump of a call. What makes it right is that names have addresses below 2^30.
//!
//! A call passes its arguments by the convention: those past the eighth below the saved registers, then the callee's address goes to a register that is not for
//! arguments, but for that of a name, which the jump makes in x1, and the first eight come to x10 to x17. One that stands in the register of an earlier one moves first, the last such before the others, and where
//! what it overwrites is still to be read the two change places by way of x29 (`moves`, `specs/Moves.antt`); after that they are moved in their order. On entry
//! arguments come to the places of their parameters in the same way (`specs/Functions.antt`).
#![tactic(auto)]

mod call;
mod copy;
mod ends;
mod entry;
pub mod frame;
mod jump;
pub mod laws;
pub mod layout;
mod line;
mod marks;
mod moves;
mod operand;
pub mod pace;
mod price;
mod room;
mod saved;
mod turns;
