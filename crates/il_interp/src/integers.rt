//! Operations on integers.
ghost use Rattle.std.specs.Prelude.{◌≡◌, false};
ghost use Rattle.il_ast.specs.declared.operation.Class.TheVariants.{W, L};
ghost use Rattle.il_ast.specs.declared.operation.BinaryOp.TheVariants.{Div, Rem, Sar, Shr, Shl};
ghost use Rattle.il_ast.specs.Prelude.{can_divide, on_integers, extended};
ghost use Rattle.il_interp.specs.Comparison.{is_comparison};

use il_ast::{BinaryOp, Extension};

/// The operation on two words, where it is no comparison.
pub fn on_words(op: BinaryOp, a: u32, b: u32) -> Option<u32>
    ensures { is_comparison op ≡ false → result ≡ on_integers op W a b }
{
    match op {
        BinaryOp::Add => Some(a.wrapping_add(b)),
        BinaryOp::Sub => Some(a.wrapping_sub(b)),
        BinaryOp::Mul => Some(a.wrapping_mul(b)),
        BinaryOp::And => Some(a & b),
        BinaryOp::Or => Some(a | b),
        BinaryOp::Xor => Some(a ^ b),
        BinaryOp::Div => Some(
            a.cast_signed()
                .checked_div(b.cast_signed())?
                .cast_unsigned(),
        ),
        BinaryOp::Rem => Some(
            a.cast_signed()
                .checked_rem(b.cast_signed())?
                .cast_unsigned(),
        ),
        BinaryOp::Udiv => a.checked_div(b),
        BinaryOp::Urem => a.checked_rem(b),
        BinaryOp::Sar => Some((a.cast_signed() >> (b % 32)).cast_unsigned()),
        BinaryOp::Shr => Some(a >> (b % 32)),
        BinaryOp::Shl => Some(a << (b % 32)),
        BinaryOp::Compare(_, _) => None,
    }
}

/// The operation on two longs, where it is no comparison.
pub fn on_longs(op: BinaryOp, a: u64, b: u64) -> Option<u64>
    ensures { is_comparison op ≡ false → result ≡ on_integers op L a b }
{
    match op {
        BinaryOp::Add => Some(a.wrapping_add(b)),
        BinaryOp::Sub => Some(a.wrapping_sub(b)),
        BinaryOp::Mul => Some(a.wrapping_mul(b)),
        BinaryOp::And => Some(a & b),
        BinaryOp::Or => Some(a | b),
        BinaryOp::Xor => Some(a ^ b),
        BinaryOp::Div => Some(
            a.cast_signed()
                .checked_div(b.cast_signed())?
                .cast_unsigned(),
        ),
        BinaryOp::Rem => Some(
            a.cast_signed()
                .checked_rem(b.cast_signed())?
                .cast_unsigned(),
        ),
        BinaryOp::Udiv => a.checked_div(b),
        BinaryOp::Urem => a.checked_rem(b),
        BinaryOp::Sar => Some((a.cast_signed() >> (b % 64)).cast_unsigned()),
        BinaryOp::Shr => Some(a >> (b % 64)),
        BinaryOp::Shl => Some(a << (b % 64)),
        BinaryOp::Compare(_, _) => None,
    }
}

/// The low bits of a number, widened to a word.
pub fn to_word(extension: Extension, number: u64) -> u32
    ensures { result ≡ extended extension W number }
{
    match extension {
        Extension::SignedWord | Extension::UnsignedWord => (number % 0x1_0000_0000) as u32,
        Extension::SignedHalf => i32::from(
            ((number % 0x1_0000) as u16).cast_signed(),
        ).cast_unsigned(),
        Extension::UnsignedHalf => (number % 0x1_0000) as u32,
        Extension::SignedByte => i32::from(((number % 0x100) as u8).cast_signed()).cast_unsigned(),
        Extension::UnsignedByte => (number % 0x100) as u32,
    }
}

/// The low bits of a number, widened to a long.
pub fn to_long(extension: Extension, number: u64) -> u64
    ensures { result ≡ extended extension L number }
{
    match extension {
        Extension::SignedWord => i64::from(
            ((number % 0x1_0000_0000) as u32).cast_signed(),
        ).cast_unsigned(),
        Extension::UnsignedWord => number % 0x1_0000_0000,
        Extension::SignedHalf => i64::from(
            ((number % 0x1_0000) as u16).cast_signed(),
        ).cast_unsigned(),
        Extension::UnsignedHalf => number % 0x1_0000,
        Extension::SignedByte => i64::from(((number % 0x100) as u8).cast_signed()).cast_unsigned(),
        Extension::UnsignedByte => number % 0x100,
    }
}
