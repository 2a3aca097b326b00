//! Why the machine may refuse an instruction.

/// What went wrong at an instruction, which then has had no effect.
#[derive(Clone, Copy, PartialEq, Eq, Debug)]
pub enum Fault {
    /// The word at pc is no instruction (illegal-instruction exception).
    UnknownInstruction,
    /// A byte of the word at pc may not be executed, or a jump is to an address that is no multiple of 4
    /// (instruction access fault, instruction-address-misaligned exception).
    Fetch,
    /// A load, or `write`, of a byte that may not be read (load access fault).
    Load,
    /// A store to a byte that may not be written (store access fault).
    Store,
    /// An `ecall` with a number in x17 other than those of `write` and `exit`.
    SystemCall,
}
