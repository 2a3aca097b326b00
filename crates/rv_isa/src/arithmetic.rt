//! What the operations compute (Unprivileged ISA manual, "Integer Computational Instructions" and "M Extension"): exactly `specs/Arithmetic.antt`.

ghost use Rattle.std.specs.Prelude.{◌≡◌, ◌<◌, ◌^◌, ◌*ℤ◌, pos};
ghost use Rattle.std.specs.Int.{w32, w64, cast_unsigned, int_shr};
ghost use Rattle.rv_isa.specs.Arithmetic.{
  addiw_value,
  imm_value,
  moved,
  quotient,
  reg_value,
  remainder,
  regw_value,
  shift_value,
  shiftw_value,
  taken,
  upper_value,
  widened,
  word_value,
};
ghost use Rattle.rv_isa.specs.Prelude.{load_size, load_value};

use crate::instruction::{BranchOp, ImmOp, LoadOp, RegOp, RegWOp, ShiftOp, ShiftWOp};
use crate::ranges::UpperField;
use bits::{low32, sext32};

/// An operation on two registers.
#[inline(always)]
pub fn reg_value(op: RegOp, a: u64, b: u64) -> u64
    ensures { result ≡ reg_value op a b }
{
    match op {
        RegOp::Add => a.wrapping_add(b),
        RegOp::Sub => a.wrapping_sub(b),
        RegOp::Sll => a << (b % 64),
        RegOp::Slt => u64::from(a.cast_signed() < b.cast_signed()),
        RegOp::Sltu => u64::from(a < b),
        RegOp::Xor => a ^ b,
        RegOp::Srl => a >> (b % 64),
        RegOp::Sra => (a.cast_signed() >> (b % 64)).cast_unsigned(),
        RegOp::Or => a | b,
        RegOp::And => a & b,
        RegOp::Mul => a.wrapping_mul(b),
        RegOp::Mulh => high_of_signed(a.cast_signed(), b.cast_signed()),
        RegOp::Mulhsu => high_of_signed_by_unsigned(a.cast_signed(), b),
        RegOp::Mulhu => ((u128::from(a) * u128::from(b)) >> 64) as u64,
        RegOp::Div => quotient(a, b),
        RegOp::Divu => if b == 0 { u64::MAX } else { a / b },
        RegOp::Rem => remainder(a, b),
        RegOp::Remu => if b == 0 { a } else { a % b },
    }
}

fn quotient(a: u64, b: u64) -> u64
    ensures { result ≡ quotient w64 (2 ^ 64) a b }
{
    if b == 0 {
        u64::MAX
    } else {
        a.cast_signed()
            .wrapping_div(b.cast_signed())
            .cast_unsigned()
    }
}

fn remainder(a: u64, b: u64) -> u64
    ensures { result ≡ remainder w64 a b }
{
    if b == 0 {
        a
    } else {
        a.cast_signed()
            .wrapping_rem(b.cast_signed())
            .cast_unsigned()
    }
}

/// The high half of a signed product.
fn high_of_signed(a: i64, b: i64) -> u64
    ensures { result ≡ cast_unsigned w64 (int_shr (a *ℤ b) 64) }
{
    (((i128::from(a) * i128::from(b)) >> 64) as i64).cast_unsigned()
}

/// The high half of the product of a signed and an unsigned number.
fn high_of_signed_by_unsigned(a: i64, b: u64) -> u64
    ensures { result ≡ cast_unsigned w64 (int_shr (a *ℤ pos b) 64) }
{
    (((i128::from(a) * i128::from(b)) >> 64) as i64).cast_unsigned()
}

/// An operation of 32 bits on two registers.
#[inline(always)]
pub fn regw_value(op: RegWOp, a: u64, b: u64) -> u64
    ensures { result ≡ regw_value op a b }
{
    sext32(word_value(op, low32(a), low32(b)))
}

#[inline(always)]
fn word_value(op: RegWOp, a: u32, b: u32) -> u32
    ensures { result ≡ word_value op a b }
{
    match op {
        RegWOp::Addw => a.wrapping_add(b),
        RegWOp::Subw => a.wrapping_sub(b),
        RegWOp::Sllw => a << (b % 32),
        RegWOp::Srlw => a >> (b % 32),
        RegWOp::Sraw => (a.cast_signed() >> (b % 32)).cast_unsigned(),
        RegWOp::Mulw => a.wrapping_mul(b),
        RegWOp::Divw => word_quotient(a, b),
        RegWOp::Divuw => if b == 0 { u32::MAX } else { a / b },
        RegWOp::Remw => word_remainder(a, b),
        RegWOp::Remuw => if b == 0 { a } else { a % b },
    }
}

fn word_quotient(a: u32, b: u32) -> u32
    ensures { result ≡ quotient w32 (2 ^ 32) a b }
{
    if b == 0 {
        u32::MAX
    } else {
        a.cast_signed()
            .wrapping_div(b.cast_signed())
            .cast_unsigned()
    }
}

fn word_remainder(a: u32, b: u32) -> u32
    ensures { result ≡ remainder w32 a b }
{
    if b == 0 {
        a
    } else {
        a.cast_signed()
            .wrapping_rem(b.cast_signed())
            .cast_unsigned()
    }
}

/// An immediate as a word of 64 bits, by its sign.
#[inline(always)]
pub fn widened(z: i32) -> u64
    ensures { result ≡ widened z }
{
    i64::from(z).cast_unsigned()
}

/// An operation on a register and an immediate.
#[inline(always)]
pub fn imm_value(op: ImmOp, a: u64, z: i16) -> u64
    ensures { result ≡ imm_value op a z }
{
    let b = widened(i32::from(z));
    match op {
        ImmOp::Addi => a.wrapping_add(b),
        ImmOp::Slti => u64::from(a.cast_signed() < b.cast_signed()),
        ImmOp::Sltiu => u64::from(a < b),
        ImmOp::Xori => a ^ b,
        ImmOp::Ori => a | b,
        ImmOp::Andi => a & b,
    }
}

#[inline(always)]
pub fn addiw_value(a: u64, z: i16) -> u64
    ensures { result ≡ addiw_value a z }
{
    sext32(low32(a.wrapping_add(widened(i32::from(z)))))
}

#[inline(always)]
pub fn shift_value(op: ShiftOp, a: u64, amount: u8) -> u64
    ensures { result ≡ shift_value op a amount }
{
    let amount = u64::from(amount);
    match op {
        ShiftOp::Slli => reg_value(RegOp::Sll, a, amount),
        ShiftOp::Srli => reg_value(RegOp::Srl, a, amount),
        ShiftOp::Srai => reg_value(RegOp::Sra, a, amount),
    }
}

#[inline(always)]
pub fn shiftw_value(op: ShiftWOp, a: u64, amount: u8) -> u64
    ensures { result ≡ shiftw_value op a amount }
{
    let amount = u64::from(amount);
    match op {
        ShiftWOp::Slliw => regw_value(RegWOp::Sllw, a, amount),
        ShiftWOp::Srliw => regw_value(RegWOp::Srlw, a, amount),
        ShiftWOp::Sraiw => regw_value(RegWOp::Sraw, a, amount),
    }
}

/// What `lui` loads.
#[inline(always)]
pub fn upper_value(field: UpperField) -> u64
    ensures { result ≡ upper_value field }
{
    sext32(field.value * 0x1000)
}

/// Whether a branch is taken.
#[inline(always)]
pub fn taken(op: BranchOp, a: u64, b: u64) -> bool
    ensures { result ≡ taken op a b }
{
    match op {
        BranchOp::Beq => a == b,
        BranchOp::Bne => a != b,
        BranchOp::Blt => a.cast_signed() < b.cast_signed(),
        BranchOp::Bge => a.cast_signed() >= b.cast_signed(),
        BranchOp::Bltu => a < b,
        BranchOp::Bgeu => a >= b,
    }
}

/// An address and a signed offset.
#[inline(always)]
pub fn moved(at: u64, offset: i32) -> u64
    ensures { result ≡ moved at offset }
{
    at.wrapping_add(widened(offset))
}

/// The loaded number, of as many bytes as the load reads, as a word of 64 bits.
#[inline(always)]
pub fn load_value(op: LoadOp, n: u64) -> u64
    requires { n < 256 ^ load_size op }
    ensures { result ≡ load_value op n }
{
    match op {
        LoadOp::Lb => i64::from((n as u8).cast_signed()).cast_unsigned(),
        LoadOp::Lh => i64::from((n as u16).cast_signed()).cast_unsigned(),
        LoadOp::Lw => i64::from((n as u32).cast_signed()).cast_unsigned(),
        LoadOp::Ld | LoadOp::Lbu | LoadOp::Lhu | LoadOp::Lwu => n,
    }
}
