//! Why a run of the machine ended.

use rv_isa::Fault;

/// What stopped the machine.
#[derive(Clone, Copy, PartialEq, Eq, Debug)]
pub enum Stop {
    /// The program called `exit` with this status.
    Exit(u8),
    /// The program came to `ebreak`.
    Break,
    /// The limit of instructions was reached; the program had not stopped.
    Limit,
    /// There was no memory for what the instruction puts out or stores. It has had no effect.
    Memory,
    /// The instruction at this pc was refused, and has had no effect.
    Fault(Fault, u64),
}
