//! The facts that are known at a place of a block.
ghost use Rattle.std.specs.Prelude.{◌≡◌, ◌<◌, IfSome, None, if◌then◌else◌, nat_eq, ◌&&◌, ◌||◌};
ghost use Rattle.value_numbering.specs.Known.{copied_from, source, copied, shifted_in, shifted, is_back, extended, grows_as, grows_in, widened, joined, canonical, reads, is_plain, kept_fact, IsIn};

use crate::fact::{Expression, Fact, reads};
use crate::same::same_expression;
use rv_isa::{RegOp, RegWOp};
use vcode::{Operand, Operation};

/// The register that a fact says this one is a copy of.
fn copied_by(fact: Fact, register: u32) -> Option<u32>
    ensures { result ≡ if nat_eq fact.register register then copied_from fact.value else None }
{
    if fact.register == register {
        match fact.value {
            Expression::Same(Operand::At(from)) => Some(from),
            _ => None,
        }
    } else {
        None
    }
}

/// The register that this one is first known to be a copy of, or itself.
pub(crate) fn source(facts: &[Fact], register: u32) -> u32
    ensures { result ≡ source facts.now register }
{
    for fact in facts {
        if let Some(from) = copied_by(*fact, register) {
            return from;
        }
    }
    register
}

pub(crate) fn copied(facts: &[Fact], operand: Operand<u32>) -> Operand<u32>
    ensures { result ≡ copied facts.now operand }
{
    match operand {
        Operand::At(register) => Operand::At(source(facts, register)),
        _ => operand,
    }
}

/// What a value is, shifted to the left by so many bits.
fn shifted_in(value: Expression, bits: u64) -> Option<Operand<u32>>
    ensures { result ≡ shifted_in value bits }
{
    match value {
        Expression::Operated(Operation::Reg(RegOp::Sll), operand, Operand::Number(by)) => {
            if by == bits { Some(operand) } else { None }
        }
        _ => None,
    }
}

/// What a fact says that the register holds, shifted to the left by so many bits.
fn shifted_by(fact: Fact, register: u32, bits: u64) -> Option<Operand<u32>>
    ensures { result ≡ if nat_eq fact.register register then shifted_in fact.value bits else None }
{
    if fact.register == register {
        shifted_in(fact.value, bits)
    } else {
        None
    }
}

/// What the register is first known to hold, shifted to the left by so many bits.
fn shifted(facts: &[Fact], register: u32, bits: u64) -> Option<Operand<u32>>
    ensures { result ≡ shifted facts.now register bits }
{
    for fact in facts {
        if let Some(operand) = shifted_by(*fact, register, bits) {
            return Some(operand);
        }
    }
    None
}

/// Whether the operation shifts to the right.
pub(crate) fn is_back(op: RegOp) -> bool
    ensures { result ≡ is_back op }
{
    match op {
        RegOp::Srl | RegOp::Sra => true,
        _ => false,
    }
}

/// An operation on a register and a number: an extension where it shifts back what was shifted to the left by as many bits.
fn extended(facts: &[Fact], op: RegOp, register: u32, bits: u64) -> Expression
    ensures { result ≡ extended facts.now op register bits }
{
    let whole = Expression::Operated(
        Operation::Reg(op),
        Operand::At(register),
        Operand::Number(bits),
    );
    if is_back(op) {
        match shifted(facts, register, bits) {
            Some(operand) => Expression::Extended(op, operand, bits),
            None => whole,
        }
    } else {
        whole
    }
}

/// Whether an expression says that this number gives the same as a word and as a long.
fn grows_as(value: Expression, number: u64) -> bool
    ensures { result ≡ grows_as value number }
{
    match value {
        Expression::Growing(_, by) => by == number,
        _ => false,
    }
}

fn grows_by(fact: Fact, register: u32, number: u64) -> bool
    ensures { result ≡ (nat_eq fact.register register && grows_as fact.value number) }
{
    fact.register == register && grows_as(fact.value, number)
}

/// Whether it is known that the number added to the register as a word gives what it gives as a long.
pub(crate) fn grows_in(facts: &[Fact], register: u32, number: u64) -> bool
    ensures { result ≡ grows_in facts.now register number }
{
    for fact in facts {
        if grows_by(*fact, register, number) {
            return true;
        }
    }
    false
}

/// A sum of words, as one of longs where that is the same.
fn widened(op: RegWOp, register: u32, number: u64, grows: bool) -> Expression
    ensures { result ≡ widened op register number grows }
{
    let operation = match (op, grows) {
        (RegWOp::Addw, true) => Operation::Reg(RegOp::Add),
        _ => Operation::RegW(op),
    };
    Expression::Operated(operation, Operand::At(register), Operand::Number(number))
}

fn joined(
    facts: &[Fact],
    operation: Operation,
    left: Operand<u32>,
    right: Operand<u32>,
) -> Expression
    ensures { result ≡ joined facts.now operation left right }
{
    match operation {
        Operation::Reg(op) => match left {
            Operand::At(register) => match right {
                Operand::Number(bits) => extended(facts, op, register, bits),
                _ => Expression::Operated(operation, left, right),
            },
            _ => Expression::Operated(operation, left, right),
        },
        Operation::RegW(op) => match left {
            Operand::At(register) => match right {
                Operand::Number(number) => {
                    widened(op, register, number, grows_in(facts, register, number))
                }
                _ => Expression::Operated(operation, left, right),
            },
            _ => Expression::Operated(operation, left, right),
        },
        _ => Expression::Operated(operation, left, right),
    }
}

/// The expression of registers that are no copies.
pub(crate) fn canonical(facts: &[Fact], value: Expression) -> Expression
    ensures { result ≡ canonical facts.now value }
{
    match value {
        Expression::Same(operand) => Expression::Same(copied(facts, operand)),
        Expression::Operated(op, left, right) => {
            joined(facts, op, copied(facts, left), copied(facts, right))
        }
        Expression::Extended(op, operand, bits) => {
            Expression::Extended(op, copied(facts, operand), bits)
        }
        Expression::Loaded(op, base, distance) => {
            Expression::Loaded(op, copied(facts, base), distance)
        }
        Expression::Linear(base, index, factor, offset) => Expression::Linear(
            copied(facts, base),
            copied(facts, index),
            factor,
            offset,
        ),
        Expression::Growing(operand, number) => {
            Expression::Growing(copied(facts, operand), number)
        }
    }
}

/// Whether a value is a number or a name, which no other register stands for.
pub(crate) fn is_plain(value: Expression) -> bool
    ensures { result ≡ is_plain value }
{
    match value {
        Expression::Same(Operand::At(_)) => false,
        Expression::Same(_) => true,
        _ => false,
    }
}

fn is_unused(fact: &Fact) -> bool
    ensures { result ≡ (reads fact.now.register fact.now.value || is_plain fact.now.value) }
{
    reads(fact.register, fact.value) || is_plain(fact.value)
}

pub(crate) fn kept_fact(fact: Fact) -> Option<Fact>
    ensures { result ≡ kept_fact fact }
{
    if is_unused(&fact) { None } else { Some(fact) }
}

/// A register of the function that is known to hold what the expression gives.
pub(crate) fn holder(facts: &[Fact], registers: u32, value: &Expression) -> Option<u32>
    ensures low { IfSome result (λ r. r < registers) }
    ensures holds { IfSome result (λ r. IsIn (record { register = r; value = value.now }) facts.now) }
{
    for fact in facts {
        if fact.register < registers && same_expression(&fact.value, value) {
            return Some(fact.register);
        }
    }
    None
}
