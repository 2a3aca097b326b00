//! Comparisons of two numbers (QBE IL, "Comparisons"): exactly `holds` of `specs/Operations`.
ghost use Rattle.std.specs.Prelude.{◌≡◌, ◌%◌};
ghost use Rattle.il_ast.specs.Prelude.{W, L, holds, modulus};

use crate::operation::{Class, Condition};

/// Whether a condition holds of two words.
pub fn words_hold(on: Condition, a: u32, b: u32) -> bool
    ensures { result ≡ holds on W a b }
{
    match on {
        Condition::Equal => a == b,
        Condition::NotEqual => a != b,
        Condition::SignedLessEqual => a.cast_signed() <= b.cast_signed(),
        Condition::SignedLess => a.cast_signed() < b.cast_signed(),
        Condition::SignedGreaterEqual => a.cast_signed() >= b.cast_signed(),
        Condition::SignedGreater => a.cast_signed() > b.cast_signed(),
        Condition::UnsignedLessEqual => a <= b,
        Condition::UnsignedLess => a < b,
        Condition::UnsignedGreaterEqual => a >= b,
        Condition::UnsignedGreater => a > b,
    }
}

/// Whether a condition holds of two longs.
pub fn longs_hold(on: Condition, a: u64, b: u64) -> bool
    ensures { result ≡ holds on L a b }
{
    match on {
        Condition::Equal => a == b,
        Condition::NotEqual => a != b,
        Condition::SignedLessEqual => a.cast_signed() <= b.cast_signed(),
        Condition::SignedLess => a.cast_signed() < b.cast_signed(),
        Condition::SignedGreaterEqual => a.cast_signed() >= b.cast_signed(),
        Condition::SignedGreater => a.cast_signed() > b.cast_signed(),
        Condition::UnsignedLessEqual => a <= b,
        Condition::UnsignedLess => a < b,
        Condition::UnsignedGreaterEqual => a >= b,
        Condition::UnsignedGreater => a > b,
    }
}

/// Whether a condition holds of two numbers, each read in a place of the class: of its low 32 bits, where that is a word.
pub fn numbers_hold(on: Condition, class: Class, a: u64, b: u64) -> bool
    ensures { result ≡ holds on class (a % modulus class) (b % modulus class) }
{
    match class {
        Class::W => words_hold(on, (a % 0x1_0000_0000) as u32, (b % 0x1_0000_0000) as u32),
        Class::L => longs_hold(on, a, b),
    }
}
