//! Instructions by numbers of registers.
ghost use Rattle.std.specs.Prelude.{◌≡◌, ◌<◌};
ghost use Rattle.rv_isa.specs.declared.labelled.Item.TheVariants.{Plain};
ghost use Rattle.rv_isa.specs.declared.instruction.Instr.TheVariants.{Lui, Load, Shift, Addiw};
ghost use Rattle.rv_isa.specs.declared.instruction.ShiftOp.TheVariants.{Srli};
ghost use Rattle.vcode.specs.Prelude.{low};
ghost use Rattle.operation_code.specs.Constants.{reg, field, amount, word_amount, add_low, extend, sum_to, load_8, store_8, shift_11, shifted_by, load_to, store_from, store_at};

use rv_isa::{
    Amount, ImmOp, Immediate, Instr, Item, LoadOp, RegOp, Register, ShiftOp, StoreOp, UpperField,
    WordAmount,
};
use vcode::place::low_part;

/// The register of that number, modulo 32.
pub fn register(number: u8) -> Register
    ensures { result ≡ reg number }
{
    Register {
        number: number % 32,
    }
}

/// The low 20 bits of a number.
pub(crate) fn upper_field(number: u64) -> UpperField
    ensures { result ≡ field number }
{
    UpperField {
        value: (number % 0x10_0000) as u32,
    }
}

/// `addi`, with the low part of a number.
pub fn add_immediate(to: u8, from: u8, number: u64) -> Item
    ensures { result ≡ add_low to from number }
{
    Item::Plain(Instr::Imm {
        op: ImmOp::Addi,
        rd: register(to),
        rs1: register(from),
        immediate: low_part(number),
    })
}

/// `addiw` with 0: the low 32 bits, sign-extended.
pub fn extend_word(to: u8, from: u8) -> Item
    ensures { result ≡ extend to from }
{
    Item::Plain(Instr::Addiw {
        rd: register(to),
        rs1: register(from),
        immediate: low_part(0),
    })
}

/// `add`.
pub fn add(to: u8, left: u8, right: u8) -> Item
    ensures { result ≡ sum_to to left right }
{
    Item::Plain(Instr::Reg {
        op: RegOp::Add,
        rd: register(to),
        rs1: register(left),
        rs2: register(right),
    })
}

/// `ld`, at the low part of an offset from a register.
pub fn load(to: u8, base: u8, offset: u64) -> Item
    ensures { result ≡ load_8 to base offset }
{
    Item::Plain(Instr::Load {
        op: LoadOp::Ld,
        rd: register(to),
        rs1: register(base),
        offset: low_part(offset),
    })
}

/// A load at the low part of an offset from a register.
pub fn load_at(op: LoadOp, to: u8, base: u8, offset: u64) -> Item
    ensures { result ≡ Plain (Load op (reg to) (reg base) (low offset)) }
{
    Item::Plain(Instr::Load {
        op,
        rd: register(to),
        rs1: register(base),
        offset: low_part(offset),
    })
}

/// A load at an offset from a register.
pub fn load_to(op: LoadOp, to: u8, base: u8, offset: Immediate) -> Item
    ensures { result ≡ load_to op to base offset }
{
    Item::Plain(Instr::Load {
        op,
        rd: register(to),
        rs1: register(base),
        offset,
    })
}

/// A store at an offset from a register.
pub fn store_from(op: StoreOp, value: u8, base: u8, offset: Immediate) -> Item
    ensures { result ≡ store_from op value base offset }
{
    Item::Plain(Instr::Store {
        op,
        rs1: register(base),
        rs2: register(value),
        offset,
    })
}

/// A store at the low part of an offset from a register.
pub fn store_at(op: StoreOp, value: u8, base: u8, offset: u64) -> Item
    ensures { result ≡ store_at op value base offset }
{
    store_from(op, value, base, low_part(offset))
}

/// `sd`, at the low part of an offset from a register.
pub fn store(value: u8, base: u8, offset: u64) -> Item
    ensures { result ≡ store_8 value base offset }
{
    Item::Plain(Instr::Store {
        op: StoreOp::Sd,
        rs1: register(base),
        rs2: register(value),
        offset: low_part(offset),
    })
}

/// `lui`.
pub fn load_upper(to: u8, field: UpperField) -> Item
    ensures { result ≡ Plain (Lui (reg to) field) }
{
    Item::Plain(Instr::Lui {
        rd: register(to),
        field,
    })
}

/// By how many bits a shift by that number goes: modulo 64.
#[tactic(auto, using(rv_isa::proofs::Same::same_amount))]
pub(crate) fn amount(number: u64) -> Amount
    ensures { result ≡ amount number }
{
    Amount {
        value: (number % 64) as u8,
    }
}

/// The same of a shift of 32 bits: modulo 32.
#[tactic(auto, using(rv_isa::proofs::Same::same_word_amount))]
pub(crate) fn word_amount(number: u64) -> WordAmount
    ensures { result ≡ word_amount number }
{
    WordAmount {
        value: (number % 32) as u8,
    }
}

/// `slli` by 11.
pub(crate) fn shift_by_11(to: u8) -> Item
    ensures { result ≡ shift_11 to }
{
    Item::Plain(Instr::Shift {
        op: ShiftOp::Slli,
        rd: register(to),
        rs1: register(to),
        amount: amount(11),
    })
}

/// `slli` by so many bits.
pub(crate) fn shift_by(to: u8, bits: u64) -> Item
    ensures { result ≡ shifted_by to bits }
{
    Item::Plain(Instr::Shift {
        op: ShiftOp::Slli,
        rd: register(to),
        rs1: register(to),
        amount: amount(bits),
    })
}

/// `srli` by 1.
pub(crate) fn halve(to: u8) -> Item
    ensures { result ≡ Plain (Shift Srli (reg to) (reg to) (amount 1)) }
{
    Item::Plain(Instr::Shift {
        op: ShiftOp::Srli,
        rd: register(to),
        rs1: register(to),
        amount: amount(1),
    })
}

/// `addiw`, with the low part of a number.
pub(crate) fn add_word(to: u8, from: u8, number: u64) -> Item
    ensures { result ≡ Plain (Addiw (reg to) (reg from) (low number)) }
{
    Item::Plain(Instr::Addiw {
        rd: register(to),
        rs1: register(from),
        immediate: low_part(number),
    })
}
