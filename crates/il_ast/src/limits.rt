//! The limits of the language: choices of this project, each said here alone. Code and definitions cite them.

/// The most texts of a program.
pub const TEXTS: usize = 256;

/// The longest text, in bytes.
pub const TEXT_BYTES: usize = 16_777_216;

/// The most functions of a program.
pub const FUNCTIONS: usize = 10_000;

/// The greatest weight of a function.
pub const FUNCTION_WEIGHT: u64 = 40_000;

/// The greatest weight of a program, which is that of all its functions.
pub const PROGRAM_WEIGHT: u64 = 200_000;

/// The most temporaries of a function, parameters among them.
pub const TEMPORARIES: usize = 4_000;

/// The most parameters of a function, and the most arguments of a call.
pub const ARGUMENTS: usize = 64;

/// The most bytes of an `alloc`, and of all of a function, each rounded up to a multiple of 16.
pub const ALLOC_BYTES: u64 = 1_048_576;

/// The most bytes of a `blit`.
pub const BLIT_BYTES: u64 = 4_096;

/// The bytes of stack that `main` is called with.
pub const STACK_ROOM: u32 = 8_388_352;

/// The most bytes of a program's data, each datum rounded up to a multiple of 16.
pub const DATA_BYTES: u64 = 16_777_216;

/// The most argument words that a program is given.
pub const WORDS: usize = 1_024;

/// The most bytes that these have, each with its closing zero.
pub const WORD_BYTES: usize = 65_536;
