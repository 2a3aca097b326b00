//! Values, cells of memory, and the ends of a run.

/// What a function value names: a function of the program by its number, or a predefined one.
#[derive(Clone, Copy, Debug, PartialEq, Eq)]
pub enum Callee {
    Defined(usize),
    SystemWrite,
    SystemExit,
}

/// A value. No value has an address: a pointer is a block of memory and an offset in it.
#[derive(Clone, Copy, Debug, PartialEq, Eq)]
pub enum Value {
    /// below 2^32 in a `w` temporary
    Integer(u64),
    /// a block by its number, and an offset in bytes modulo 2^64
    Pointer { block: u128, offset: u64 },
    Function(Callee),
}

impl Default for Value {
    fn default() -> Self {
        Value::Integer(0)
    }
}

/// One byte's place in memory.
#[derive(Clone, Copy)]
pub enum Cell {
    /// a byte
    Plain(u8),
    /// one of the eight parts of a pointer or function value, numbered from 0
    Part { value: Value, index: u8 },
    /// never written
    Blank,
}

/// How a run ends.
#[derive(Clone, Copy, Debug, PartialEq, Eq)]
pub enum End {
    /// the exit status, from `exit` or the return of `main`
    Exit(u8),
    /// `hlt`
    Halt,
    /// the program did what has no meaning
    Undefined,
    /// a call found too little room on the stack
    Stack,
    /// a turn was due and none was left
    Turns,
}
