//! What a program may do with a byte of memory.

/// What is allowed at an address. Where no memory is, nothing is.
#[derive(Clone, Copy)]
pub struct Permission {
    /// Loads may read the byte.
    pub readable: bool,
    /// Stores may write it.
    pub writable: bool,
    /// It may be fetched as part of an instruction.
    pub executable: bool,
}
