//! The registers by their roles, the system calls and the stack: the vocabulary of whoever emits code, runs it, or says what it does.
//!
//! Registers are given by number, in the roles of the integer calling convention (RISC-V ELF psABI, "Integer Register Convention" and "Integer
//! Calling Convention", LP64). System calls are those of Linux for RISC-V.

/// x0, which is 0 and stays so.
pub const ZERO: u8 = 0;

/// x1: where a callee returns to.
pub const RETURN_ADDRESS: u8 = 1;

/// x2. At each call it is a multiple of 16.
pub const STACK_POINTER: u8 = 2;

/// x4. x3 and x4, the global and the thread pointer, are never used.
pub const THREAD_POINTER: u8 = 4;

/// x5, the first of the temporaries x5 to x7, which a callee may change.
pub const FIRST_TEMPORARY: u8 = 5;

/// x7.
pub const LAST_TEMPORARY: u8 = 7;

/// x8, the first of the registers [`SAVED`] that a callee keeps.
pub const FIRST_SAVED: u8 = 8;

/// x9.
pub const SECOND_SAVED: u8 = 9;

/// x10, the first of the registers that pass arguments.
pub const FIRST_ARGUMENT: u8 = 10;

/// x11.
pub const SECOND_ARGUMENT: u8 = 11;

/// x12.
pub const THIRD_ARGUMENT: u8 = 12;

/// x17.
pub const LAST_ARGUMENT: u8 = 17;

/// How many arguments registers pass. Those after them stand on the stack.
pub const ARGUMENT_REGISTERS: u8 = 8;

/// x10, the register of a result.
pub const RESULT: u8 = 10;

/// x18.
pub const THIRD_SAVED: u8 = 18;

/// x27.
pub const LAST_SAVED: u8 = 27;

/// The registers that a callee keeps beside the stack pointer and those that are never used, in order: x8, x9 and x18 to x27.
pub const SAVED: [u8; 12] = [8, 9, 18, 19, 20, 21, 22, 23, 24, 25, 26, 27];

/// x28, the first of the registers that hold operands and addresses within the code of a line: x28 to x30. A callee may change them.
pub const FIRST_SCRATCH: u8 = 28;

/// x29.
pub const SECOND_SCRATCH: u8 = 29;

/// x30.
pub const THIRD_SCRATCH: u8 = 30;

/// x31, which long jumps use, and within the code of a line copies of bytes.
pub const JUMP_SCRATCH: u8 = 31;

/// How many registers there are.
pub const REGISTERS: u8 = 32;

/// x17, the register of a system call's number.
pub const SYSTEM_CALL: u8 = 17;

/// The number of the system call `write`.
pub const WRITE: u8 = 64;

/// The number of the system call `exit`.
pub const EXIT: u8 = 93;

/// The descriptor of standard output.
pub const STANDARD_OUTPUT: u8 = 1;

/// What `write` answers for a descriptor that isn't open: -9, EBADF, as 64 bits.
pub const BAD_DESCRIPTOR: u64 = 0xffff_ffff_ffff_fff7;

/// The stack pointer at the start of a program: the stack is below it, the argument words from it upward.
pub const STACK_TOP: u64 = 0x1000_0000;

/// The bytes of the stack.
pub const STACK_SIZE: u64 = 0x0080_0000;

/// The lowest address of the stack.
pub const STACK_BOTTOM: u64 = STACK_TOP - STACK_SIZE;

/// The most bytes that the argument words and their list take, from the stack's top upward: what stands around 1,024 words of 65,536 bytes.
pub const ARGUMENT_BYTES: u64 = 73_768;
