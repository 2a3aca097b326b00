//! Sums whose summands are added in another order, one of two of them being known already.
ghost use Rattle.std.specs.Prelude.{◌≡◌, ◌<◌, true, IfSome};
ghost use Rattle.vcode.specs.Prelude.{operand_keeps, is_below};
ghost use Rattle.vcode.specs.declared.line.Line.TheVariants.{Operate};
ghost use Rattle.vcode.specs.declared.place.Operand.TheVariants.{At};
ghost use Rattle.value_numbering.specs.declared.fact.Expression.TheVariants.{Operated};
ghost use Rattle.value_numbering.specs.Known.{copied};
ghost use Rattle.value_numbering.specs.Reused.{is_sum, Adds, IsSum, IsRegrouped, Made};

use crate::fact::{Expression, Fact};
use crate::known::{copied, holder, source};
use crate::same::same_operation;
use rv_isa::{RegOp, RegWOp};
use vcode::cost::is_immediate;
use vcode::{Line, Operand, Operation};

/// A register, and what is added to it.
#[derive(Clone, Copy)]
struct Pair {
    part: u32,
    rest: Operand<u32>,
}

/// Whether the operation adds: longs, or words.
fn is_sum(operation: Operation) -> bool
    ensures { result ≡ is_sum operation }
{
    match operation {
        Operation::Reg(RegOp::Add) => true,
        Operation::RegW(RegWOp::Addw) => true,
        _ => false,
    }
}

/// The two operands of which the operation gives a value.
fn operands_of(operation: Operation, value: Expression) -> Option<(Operand<u32>, Operand<u32>)>
    ensures { IfSome result (λ both. value ≡ Operated operation both.0 both.1) }
{
    match value {
        Expression::Operated(by, left, right) => {
            if same_operation(by, operation) {
                Some((left, right))
            } else {
                None
            }
        }
        _ => None,
    }
}

/// The two operands whose sum the register is first known to hold.
fn summands(
    facts: &[Fact],
    operation: Operation,
    register: u32,
) -> Option<(Operand<u32>, Operand<u32>)>
    ensures { IfSome result (λ both. Adds facts.now operation register both.0 both.1) }
{
    for fact in facts {
        if fact.register == register {
            if let Some(both) = operands_of(operation, fact.value) {
                return Some(both);
            }
        }
    }
    None
}

/// A register of the function that is known to hold the sum of these two, in this order.
fn in_order(
    facts: &[Fact],
    registers: u32,
    operation: &Operation,
    left: &Operand<u32>,
    right: &Operand<u32>,
) -> Option<u32>
    ensures low { IfSome result (λ r. r < registers) }
    ensures holds { IfSome result (λ r. Adds facts.now operation.now r left.now right.now) }
{
    let value = Expression::Operated(*operation, *left, *right);
    holder(facts, registers, &value)
}

/// ... in either order.
fn in_any_order(
    facts: &[Fact],
    registers: u32,
    operation: &Operation,
    left: &Operand<u32>,
    right: &Operand<u32>,
) -> Option<u32>
    ensures low { IfSome result (λ r. r < registers) }
    ensures holds { IfSome result (λ r. IsSum facts.now operation.now r left.now right.now) }
{
    match in_order(facts, registers, operation, left, right) {
        Some(register) => Some(register),
        None => in_order(facts, registers, operation, right, left),
    }
}

/// A register that is known to hold the sum of one of two summands and of what is added.
fn part(
    facts: &[Fact],
    registers: u32,
    operation: &Operation,
    kept: &Operand<u32>,
    added: &Operand<u32>,
) -> Option<u32>
    ensures low { IfSome result (λ r. r < registers) }
    ensures holds { IfSome result (λ r. IsSum facts.now operation.now r kept.now (copied facts.now added.now)) }
{
    let other = copied(facts, *added);
    in_any_order(facts, registers, operation, kept, &other)
}

/// Whether the operand names only registers of the function.
fn is_low(registers: u32, operand: &Operand<u32>) -> bool
    ensures { result ≡ operand_keeps (is_below registers) operand.now }
{
    match operand {
        Operand::At(register) => *register < registers,
        _ => true,
    }
}

fn is_register(operand: &Operand<u32>) -> bool {
    matches!(operand, Operand::At(_))
}

/// Whether it is worth to add one operand to a register that has the sum of two others: a sum of a long and a number is part of an address, and that number is added last.
/// That a register holds itself and 0, as it does where it holds a whole word, is no sum.
fn is_better(
    operation: &Operation,
    kept: &Operand<u32>,
    rest: &Operand<u32>,
    added: &Operand<u32>,
) -> bool {
    if matches!(
        (kept, rest),
        (Operand::Number(0), _) | (_, Operand::Number(0))
    ) {
        return false;
    }
    let is_short = match rest {
        Operand::Number(number) => is_immediate(*number),
        _ => true,
    };
    match operation {
        Operation::Reg(_) => is_short && is_register(kept) && is_register(added),
        _ => is_short,
    }
}

/// A register and an operand whose sum is that of `register`, which is the sum of two, and of what is added.
fn regrouped_by(
    facts: &[Fact],
    registers: u32,
    operation: &Operation,
    register: u32,
    kept: &Operand<u32>,
    rest: &Operand<u32>,
    added: &Operand<u32>,
) -> Option<Pair>
    requires adds { is_sum operation.now ≡ true }
    requires sum { IsSum facts.now operation.now register kept.now rest.now }
    ensures { IfSome result (λ p. IsRegrouped registers facts.now operation.now register added.now p.part p.rest) }
{
    if !is_low(registers, rest) || !is_better(operation, kept, rest, added) {
        return None;
    }
    match part(facts, registers, operation, kept, added) {
        Some(part) => Some(Pair { part, rest: *rest }),
        None => None,
    }
}

/// The same by either of the two whose sum the register is.
fn regrouped(
    facts: &[Fact],
    registers: u32,
    operation: &Operation,
    register: u32,
    added: &Operand<u32>,
) -> Option<Pair>
    requires { is_sum operation.now ≡ true }
    ensures { IfSome result (λ p. IsRegrouped registers facts.now operation.now register added.now p.part p.rest) }
{
    let (left, right) = match summands(facts, *operation, register) {
        Some(both) => both,
        None => return None,
    };
    match regrouped_by(facts, registers, operation, register, &left, &right, added) {
        Some(pair) => Some(pair),
        None => regrouped_by(facts, registers, operation, register, &right, &left, added),
    }
}

fn added(to: u32, operation: Operation, pair: Pair) -> Line<u32>
    ensures { result ≡ Operate to operation (At pair.part) pair.rest }
{
    Line::Operate {
        to,
        operation,
        left: Operand::At(pair.part),
        right: pair.rest,
    }
}

/// A line that adds in another order, by what its left operand is the sum of.
fn by_left(
    facts: &[Fact],
    registers: u32,
    to: u32,
    operation: Operation,
    left: Operand<u32>,
    right: Operand<u32>,
) -> Option<Line<u32>>
    requires { is_sum operation ≡ true }
    ensures { IfSome result (λ m. Made registers facts.now (Operate to operation left right) m) }
{
    match left {
        Operand::At(register) => {
            let sum = source(facts, register);
            match regrouped(facts, registers, &operation, sum, &right) {
                Some(pair) => Some(added(to, operation, pair)),
                None => None,
            }
        }
        _ => None,
    }
}

/// The same by what its right operand is the sum of.
fn by_right(
    facts: &[Fact],
    registers: u32,
    to: u32,
    operation: Operation,
    left: Operand<u32>,
    right: Operand<u32>,
) -> Option<Line<u32>>
    requires { is_sum operation ≡ true }
    ensures { IfSome result (λ m. Made registers facts.now (Operate to operation left right) m) }
{
    match right {
        Operand::At(register) => {
            let sum = source(facts, register);
            match regrouped(facts, registers, &operation, sum, &left) {
                Some(pair) => Some(added(to, operation, pair)),
                None => None,
            }
        }
        _ => None,
    }
}

/// A line that adds in another order, if the sum of two of the summands is known.
pub(crate) fn regrouped_line(facts: &[Fact], registers: u32, line: &Line<u32>) -> Option<Line<u32>>
    ensures { IfSome result (λ m. Made registers facts.now line.now m) }
{
    match line {
        Line::Operate {
            to,
            operation,
            left,
            right,
        } => {
            if !is_sum(*operation) {
                return None;
            }
            match by_left(facts, registers, *to, *operation, *left, *right) {
                Some(sum) => Some(sum),
                None => by_right(facts, registers, *to, *operation, *left, *right),
            }
        }
        _ => None,
    }
}
