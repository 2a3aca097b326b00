//! Extensions by zeros that are shifted to the left: two shifts together.
ghost use Rattle.std.specs.Prelude.{◌≡◌, ◌<◌, IfSome};
ghost use Rattle.rv_isa.specs.declared.instruction.RegOp.TheVariants.{Sll, Srl};
ghost use Rattle.vcode.specs.declared.line.Line.TheVariants.{Operate};
ghost use Rattle.vcode.specs.declared.line.Operation.TheVariants.{Reg};
ghost use Rattle.vcode.specs.declared.place.Operand.TheVariants.{At, Number};
ghost use Rattle.value_numbering.specs.declared.fact.Expression.TheVariants.{Operated, Extended};
ghost use Rattle.value_numbering.specs.Known.{IsIn, source};
ghost use Rattle.value_numbering.specs.Reused.{IsHalfway, Made};

use crate::fact::{Expression, Fact};
use crate::known::{holder, source};
use rv_isa::RegOp;
use vcode::{Line, Operand, Operation};

/// An operand that is shifted to the left by so many bits and back by zeros.
#[derive(Clone, Copy)]
struct ShiftPair {
    operand: Operand<u32>,
    bits: u64,
}

/// A register and the number of bits by which it is shifted to the right.
#[derive(Clone, Copy)]
struct Shift {
    register: u32,
    by: u64,
}

fn pair_in(value: Expression) -> Option<ShiftPair>
    ensures { IfSome result (λ x. value ≡ Extended Srl x.operand x.bits) }
{
    match value {
        Expression::Extended(RegOp::Srl, operand, bits) => Some(ShiftPair { operand, bits }),
        _ => None,
    }
}

/// The extension that the register is first known to hold.
fn known_pair(facts: &[Fact], register: u32) -> Option<ShiftPair>
    ensures { IfSome result (λ x. IsIn (record { register = register; value = Extended Srl x.operand x.bits }) facts.now) }
{
    for fact in facts {
        if fact.register == register {
            if let Some(pair) = pair_in(fact.value) {
                return Some(pair);
            }
        }
    }
    None
}

/// A register of the function that holds what an extension is before it is shifted back.
fn whole(facts: &[Fact], registers: u32, pair: &ShiftPair) -> Option<u32>
    ensures low { IfSome result (λ r. r < registers) }
    ensures holds { IfSome result (λ r. IsIn (record { register = r; value = Operated (Reg Sll) pair.now.operand (Number pair.now.bits) }) facts.now) }
{
    let value = Expression::Operated(
        Operation::Reg(RegOp::Sll),
        pair.operand,
        Operand::Number(pair.bits),
    );
    holder(facts, registers, &value)
}

/// The shift to the right that gives what the register does, shifted to the left by so many bits.
fn halfway(facts: &[Fact], registers: u32, register: u32, by: u64) -> Option<Shift>
    ensures { IfSome result (λ s. IsHalfway registers facts.now register by s.register s.by) }
{
    let pair = known_pair(facts, register)?;
    if by < pair.bits && pair.bits < 64 {
        match whole(facts, registers, &pair) {
            Some(whole) => Some(Shift {
                register: whole,
                by: pair.bits - by,
            }),
            None => None,
        }
    } else {
        None
    }
}

fn shifted_back(to: u32, shift: Shift) -> Line<u32>
    ensures { result ≡ Operate to (Reg Srl) (At shift.register) (Number shift.by) }
{
    Line::Operate {
        to,
        operation: Operation::Reg(RegOp::Srl),
        left: Operand::At(shift.register),
        right: Operand::Number(shift.by),
    }
}

/// The shift to the right in the place of one to the left.
fn shift_line(facts: &[Fact], registers: u32, to: u32, register: u32, by: u64) -> Option<Line<u32>>
    ensures { IfSome result (λ m. Made registers facts.now (Operate to (Reg Sll) (At register) (Number by)) m) }
{
    match halfway(facts, registers, source(facts, register), by) {
        Some(shift) => Some(shifted_back(to, shift)),
        None => None,
    }
}

/// A line that shifts what an extension was before it was shifted back, in the place of one that shifts the extension to the left.
pub(crate) fn halfway_line(facts: &[Fact], registers: u32, line: &Line<u32>) -> Option<Line<u32>>
    ensures { IfSome result (λ m. Made registers facts.now line.now m) }
{
    match line {
        Line::Operate {
            to,
            operation: Operation::Reg(RegOp::Sll),
            left: Operand::At(register),
            right: Operand::Number(by),
        } => shift_line(facts, registers, *to, *register, *by),
        _ => None,
    }
}
