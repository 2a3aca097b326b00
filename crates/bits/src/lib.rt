//! # Words of 32 and 64 bits
//!
//! Four small functions on machine words that the makers of RISC-V code share. None takes memory, and none can fail.
//!
//! - [`sext32`] widens a 32-bit word to 64 bits by its sign, as every instruction of RV64I whose name ends in W does with its result.
//! - [`low32`] is the low half of a 64-bit word.
//! - [`split`] gives the two fields with which `lui` and then `addiw` make a 32-bit word.
//! - [`fits12`] says whether a number can be the immediate of an I-type or S-type instruction.
//!
//! Each contract is the arithmetic definition, in the words of `specs/Words.antt`: `sign_extended`, `upper_field`, `lower_field`, `fits_12`.
//! `split` also promises that its fields are in range and that together they make the number, modulo 2^32; no other two fields do.
//!
//! The crate stands on std alone.
#![tactic(auto)]

ghost use Rattle.std.specs.Prelude.{◌≡◌, ◌%◌, ◌^◌, ◌↔◌, IsTrue};
ghost use Rattle.bits.specs.Words.{sign_extended, upper_field, lower_field, Makes, fits_12, Fits12};

/// The 64-bit word with the same signed value as the 32-bit `word`: bit 31 is copied to the bits above it.
pub fn sext32(word: u32) -> u64
    ensures { result ≡ sign_extended word }
{
    i64::from(word.cast_signed()).cast_unsigned()
}

/// The low 32 bits of `word`.
pub fn low32(word: u64) -> u32
    ensures { result ≡ word % 2 ^ 32 }
{
    (word % 0x1_0000_0000) as u32
}

/// The fields of `lui` and `addiw` that make a 32-bit number.
#[derive(Clone, Copy)]
pub struct Fields {
    /// The field of `lui`, of 20 bits: it stands for 4096 times its value.
    pub upper: u32,
    /// The immediate of `addiw`, from -2048 to 2047.
    pub lower: i32,
}

/// Splits `number` into the fields with which `lui rd, upper` and then `addiw rd, rd, lower` leave its sign extension in `rd`.
///
/// Since `addiw` adds a signed immediate, `upper` is one more than bits 31 to 12 where bit 11 is set
/// (RISC-V unprivileged ISA, "RV32I Base Integer Instruction Set", "Integer Register-Immediate Instructions").
pub fn split(number: u32) -> Fields
    ensures upper { result.upper ≡ upper_field number }
    ensures lower { result.lower ≡ lower_field number }
    ensures makes { Makes number result.upper result.lower }
{
    let low = (number % 0x1000) as i32;
    Fields {
        upper: number.wrapping_add(0x800) / 0x1000,
        lower: if low < 0x800 { low } else { low - 0x1000 },
    }
}

/// Whether `number` is from -2048 to 2047, so that a signed field of 12 bits can hold it.
pub fn fits12(number: i64) -> bool
    ensures value { result ≡ fits_12 number }
    ensures range { IsTrue result ↔ Fits12 number }
{
    -2049 < number && number < 2048
}
