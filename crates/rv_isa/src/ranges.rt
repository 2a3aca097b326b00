//! The numbers that the fields of an instruction can hold, each a type that holds no other.
//!
//! Ranges are those of the unprivileged ISA manual, "RV32I Base Integer Instruction Set", "Base Instruction Formats" and
//! "Immediate Encoding Variants". Immediates and offsets are signed; branches and jumps reach even offsets alone.

ghost use Rattle.std.specs.Prelude.{◌≡◌, ◌%◌, ◌^◌, ◌<◌, ◌≤ℤ◌, ◌<ℤ◌, pos, negsuc, unsigned_abs};
ghost use Rattle.bits.specs.Words.{Fits12};

/// One of the registers x0 to x31.
#[derive(Clone, Copy)]
pub struct Register {
    /// The number, from 0 to 31.
    pub number: u8,
    pub ghost in_range: { number < 32 },
}

/// The signed immediate of 12 bits of the I-type and S-type formats.
#[derive(Clone, Copy)]
pub struct Immediate {
    /// From -2048 to 2047.
    pub value: i16,
    pub ghost in_range: { Fits12 value },
}

/// The distance in bytes from a branch to its target, of the B-type format.
#[derive(Clone, Copy)]
pub struct BranchOffset {
    /// An even number from -4096 to 4094.
    pub value: i16,
    pub ghost at_least: { negsuc 4095 ≤ℤ value },
    pub ghost at_most: { value <ℤ pos 4096 },
    pub ghost even: { unsigned_abs value % 2 ≡ 0 },
}

/// The distance in bytes from `jal` to its target, of the J-type format.
#[derive(Clone, Copy)]
pub struct JumpOffset {
    /// An even number from -1048576 to 1048574.
    pub value: i32,
    pub ghost at_least: { negsuc 1048575 ≤ℤ value },
    pub ghost at_most: { value <ℤ pos 1048576 },
    pub ghost even: { unsigned_abs value % 2 ≡ 0 },
}

/// The field of 20 bits of the U-type format; it stands for 4096 times its value.
#[derive(Clone, Copy)]
pub struct UpperField {
    /// From 0 to 1048575.
    pub value: u32,
    pub ghost in_range: { value < 2 ^ 20 },
}

/// By how many bits a 64-bit word is shifted.
#[derive(Clone, Copy)]
pub struct Amount {
    /// From 0 to 63.
    pub value: u8,
    pub ghost in_range: { value < 64 },
}

/// By how many bits a 32-bit word is shifted.
#[derive(Clone, Copy)]
pub struct WordAmount {
    /// From 0 to 31.
    pub value: u8,
    pub ghost in_range: { value < 32 },
}
