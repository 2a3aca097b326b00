//! Registers that grow by numbers, what is linear in them, and what is known behind a line.
ghost use Rattle.std.specs.Prelude.{◌≡◌, ◌<◌, ◌+◌, ◌-◌, ◌*◌, ◌%◌, ◌^◌, ◌++◌, [], filter, OnOk, IfOk, Some, None, if◌then◌else◌, nat_eq, ◌&&◌};
ghost use Rattle.value_numbering.specs.Known.{computed, canonical, stays, first_of, kept_fact};
ghost use Rattle.value_numbering.specs.Steps.{product_in, product, product_of, beyond, linear_in, linear_note, stands, word_in, is_word, is_word_by, noted, added_to, ahead, growth, increment_of, further, behind, with_offset, moved_linear, moved, if_stays, with_front, carried, kept, with_fact, after};

use crate::fact::{Expression, Fact, computed, names, stays};
use crate::known::{canonical, grows_in, kept_fact};
use rv_isa::RegOp;
use std::alloc::{AllocError, Global};
use vcode::{Line, Operand, Operation};

/// So many times what an operand holds.
#[derive(Clone, Copy)]
pub(crate) struct Multiple {
    pub(crate) index: Operand<u32>,
    pub(crate) factor: u64,
}

/// A register that grows by a number, modulo 2^64.
#[derive(Clone, Copy)]
pub(crate) struct Increment {
    pub(crate) register: u32,
    pub(crate) by: u64,
}

fn power(bits: u64) -> u64
    requires { bits < 64 }
    ensures { result ≡ 2 ^ bits }
{
    1u64 << bits
}

/// The product with a number that a value is.
fn product_in(value: Expression) -> Option<Multiple>
    ensures { result ≡ product_in value }
{
    match value {
        Expression::Operated(Operation::Reg(RegOp::Sll), index, Operand::Number(bits)) => {
            if bits < 64 {
                Some(Multiple {
                    index,
                    factor: power(bits),
                })
            } else {
                None
            }
        }
        Expression::Operated(Operation::Reg(RegOp::Mul), index, Operand::Number(factor)) => {
            Some(Multiple { index, factor })
        }
        _ => None,
    }
}

fn product_by(fact: Fact, register: u32) -> Option<Multiple>
    ensures { result ≡ if nat_eq fact.register register then product_in fact.value else None }
{
    if fact.register == register {
        product_in(fact.value)
    } else {
        None
    }
}

/// The product with a number that the register is first known to hold.
fn product(facts: &[Fact], register: u32) -> Option<Multiple>
    ensures { result ≡ product facts.now register }
{
    for fact in facts {
        if let Some(product) = product_by(*fact, register) {
            return Some(product);
        }
    }
    None
}

fn product_of(facts: &[Fact], operand: Operand<u32>) -> Option<Multiple>
    ensures { result ≡ product_of facts.now operand }
{
    match operand {
        Operand::At(register) => product(facts, register),
        _ => None,
    }
}

fn beyond(base: Operand<u32>, product: Option<Multiple>) -> Option<Expression>
    ensures { result ≡ beyond base product }
{
    match product {
        Some(product) => Some(Expression::Linear(base, product.index, product.factor, 0)),
        None => None,
    }
}

fn linear_sum(facts: &[Fact], left: &Operand<u32>, right: &Operand<u32>) -> Option<Expression>
    ensures { result ≡ first_of (beyond left.now (product_of facts.now right.now)) (beyond right.now (product_of facts.now left.now)) }
{
    match beyond(*left, product_of(facts, *right)) {
        Some(linear) => Some(linear),
        None => beyond(*right, product_of(facts, *left)),
    }
}

/// A sum of which a summand is known as a product with a number.
pub(crate) fn linear_in(facts: &[Fact], value: Expression) -> Option<Expression>
    ensures { result ≡ linear_in facts.now value }
{
    match value {
        Expression::Operated(Operation::Reg(RegOp::Add), left, right) => {
            linear_sum(facts, &left, &right)
        }
        _ => None,
    }
}

fn linear_note(facts: &[Fact], register: u32, value: Expression) -> Option<Fact>
    ensures { result ≡ linear_note facts.now register value }
{
    match linear_in(facts, value) {
        Some(linear) => kept_fact(Fact {
            register,
            value: linear,
        }),
        None => None,
    }
}

/// Whether the number is the extension of its low 32 bits.
pub(crate) fn stands(number: u64) -> bool
    ensures { result ≡ stands number }
{
    number < 0x8000_0000 || number >= 0xffff_ffff_8000_0000
}

/// Whether a value is a word that stands extended.
fn word_in(facts: &[Fact], value: Expression) -> bool
    ensures { result ≡ word_in facts.now value }
{
    match value {
        Expression::Operated(Operation::RegW(_), _, _) => true,
        Expression::Operated(
            Operation::Reg(RegOp::Add),
            Operand::At(register),
            Operand::Number(number),
        ) => grows_in(facts, register, number),
        Expression::Same(Operand::Number(number)) => stands(number),
        _ => false,
    }
}

fn word_by(facts: &[Fact], fact: Fact, register: u32) -> bool
    ensures { result ≡ (nat_eq fact.register register && word_in facts.now fact.value) }
{
    fact.register == register && word_in(facts, fact.value)
}

/// Whether the register is known to be a word that stands extended.
pub(crate) fn is_word(facts: &[Fact], register: u32) -> bool
    ensures { result ≡ is_word facts.now register }
{
    for fact in facts {
        if word_by(facts, *fact, register) {
            return true;
        }
    }
    false
}

/// What a line makes known besides what it computes, of which the value is given as one of registers that are no copies.
fn noted(facts: &[Fact], fact: &Fact, value: &Expression) -> Option<Fact>
    requires { value.now ≡ canonical facts.now fact.now.value }
    ensures { result ≡ noted facts.now fact.now }
{
    linear_note(facts, fact.register, *value)
}

/// The number that a value adds to the register.
fn added_to(register: u32, value: Expression) -> Option<u64>
    ensures { result ≡ added_to register value }
{
    match value {
        Expression::Operated(
            Operation::Reg(RegOp::Add),
            Operand::At(from),
            Operand::Number(number),
        ) => { if from == register { Some(number) } else { None } }
        _ => None,
    }
}

fn ahead_by(fact: Fact, from: u32, register: u32) -> Option<u64>
    ensures { result ≡ if nat_eq fact.register register then added_to from fact.value else None }
{
    if fact.register == register {
        added_to(from, fact.value)
    } else {
        None
    }
}

/// The number of which the register is first known to be the sum with another.
fn ahead(facts: &[Fact], from: u32, register: u32) -> Option<u64>
    ensures { result ≡ ahead facts.now from register }
{
    for fact in facts {
        if let Some(number) = ahead_by(*fact, from, register) {
            return Some(number);
        }
    }
    None
}

/// By how much the register grows that is given this value.
fn growth(facts: &[Fact], register: u32, value: Expression) -> Option<u64>
    ensures { result ≡ growth facts.now register value }
{
    match value {
        Expression::Same(Operand::At(from)) => ahead(facts, register, from),
        _ => added_to(register, value),
    }
}

/// What a line adds to its register, of which the value is given as one of registers that are no copies.
fn increment_of(facts: &[Fact], fact: &Fact, value: &Expression) -> Option<Increment>
    requires { value.now ≡ canonical facts.now fact.now.value }
    ensures { result ≡ increment_of facts.now fact.now }
{
    match growth(facts, fact.register, *value) {
        Some(by) => Some(Increment {
            register: fact.register,
            by,
        }),
        None => None,
    }
}

fn further(offset: u64, by: u64) -> u64
    ensures { result ≡ further offset by }
{
    offset.wrapping_add(by)
}

fn behind(offset: u64, by: u64, factor: u64) -> u64
    ensures { result ≡ behind offset by factor }
{
    let moved = by.wrapping_mul(factor);
    offset.wrapping_sub(moved)
}

fn with_offset(register: u32, base: Operand<u32>, index: u32, factor: u64, offset: u64) -> Fact
    ensures { result ≡ with_offset register base index factor offset }
{
    Fact {
        register,
        value: Expression::Linear(base, Operand::At(index), factor, offset),
    }
}

/// What is linear in a register, where that or the register that holds it grew.
fn moved_linear(
    increment: Increment,
    register: u32,
    base: &Operand<u32>,
    index: u32,
    factor: u64,
    offset: u64,
) -> Option<Fact>
    ensures { result ≡ moved_linear increment register base.now index factor offset }
{
    let grown = increment.register;
    if names(grown, *base) || (index == grown && register == grown) {
        None
    } else if index == grown {
        let rest = behind(offset, increment.by, factor);
        Some(with_offset(register, *base, index, factor, rest))
    } else if register == grown {
        let sum = further(offset, increment.by);
        Some(with_offset(register, *base, index, factor, sum))
    } else {
        None
    }
}

fn moved(increment: Increment, register: u32, value: Expression) -> Option<Fact>
    ensures { result ≡ moved increment register value }
{
    match value {
        Expression::Linear(base, Operand::At(index), factor, offset) => {
            moved_linear(increment, register, &base, index, factor, offset)
        }
        _ => None,
    }
}

fn if_stays(line: &Line<u32>, fact: &Fact) -> Option<Fact>
    ensures { result ≡ if_stays line.now fact.now }
{
    if stays(line, *fact) {
        Some(*fact)
    } else {
        None
    }
}

fn carried_fact(increment: Increment, line: &Line<u32>, fact: &Fact) -> Option<Fact>
    ensures { result ≡ first_of (moved increment fact.now.register fact.now.value) (if_stays line.now fact.now) }
{
    match moved(increment, fact.register, fact.value) {
        Some(fact) => Some(fact),
        None => if_stays(line, fact),
    }
}

fn push_fact(facts: &mut Vec<Fact>, fact: Option<Fact>) -> Result<(), AllocError>
    ensures { OnOk result (facts.new.items ≡ facts.old.items ++ with_front fact []) }
{
    if let Some(fact) = fact {
        facts.extend_from_slice(&[fact])?;
    }
    Ok(())
}

/// The facts behind a line that adds a number to a register.
fn carried(
    alloc: Global,
    increment: Increment,
    line: &Line<u32>,
    facts: &[Fact],
) -> Result<Vec<Fact>, AllocError>
    ensures { IfOk result (λ v. v.items ≡ carried increment line.now facts.now) }
{
    let mut all = Vec::with_capacity(alloc, facts.len())?;
    for fact in facts {
        let carried = carried_fact(increment, line, fact);
        push_fact(&mut all, carried)?;
    }
    Ok(all)
}

fn carry(
    alloc: Global,
    facts: &mut Vec<Fact>,
    increment: Increment,
    line: &Line<u32>,
) -> Result<(), AllocError>
    ensures { OnOk result (facts.new.items ≡ carried increment line.now facts.old.items) }
{
    *facts = carried(alloc, increment, line, facts.as_slice())?;
    Ok(())
}

fn forget(facts: &mut Vec<Fact>, line: &Line<u32>)
    ensures { facts.new.items ≡ filter (stays line.now) facts.old.items }
{
    facts.retain(|fact| stays(line, *fact));
}

/// Leaves what stays true over a line that computes nothing.
#[tactic(auto, using(crate::proofs::Ticking::all_stay))]
fn leave(facts: &mut Vec<Fact>, line: &Line<u32>)
    ensures { facts.new.items ≡ filter (stays line.now) facts.old.items }
{
    match line {
        Line::Tick { .. } => {}
        _ => forget(facts, line),
    }
}

/// Leaves what stays true over a line, which may add a number to a register.
fn keep(
    alloc: Global,
    facts: &mut Vec<Fact>,
    increment: Option<Increment>,
    line: &Line<u32>,
) -> Result<(), AllocError>
    ensures { OnOk result (facts.new.items ≡ kept increment line.now facts.old.items) }
{
    match increment {
        Some(increment) => carry(alloc, facts, increment, line),
        None => {
            forget(facts, line);
            Ok(())
        }
    }
}

/// One fact more, if few are known.
fn note(facts: &mut Vec<Fact>, made: Option<Fact>) -> Result<(), AllocError>
    ensures { OnOk result (facts.new.items ≡ with_fact made facts.old.items) }
{
    if let Some(fact) = made {
        if facts.len() < 64 {
            facts.extend_from_slice(&[fact])?;
        }
    }
    Ok(())
}

/// What a line that computes this makes known of its register.
fn known_of(fact: &Fact, value: &Expression) -> Option<Fact>
    ensures { result ≡ kept_fact (record { register = fact.now.register; value = value.now }) }
{
    kept_fact(Fact {
        register: fact.register,
        value: *value,
    })
}

/// Takes what is known before a line that computes this to what is known behind it.
fn pass_over(
    alloc: Global,
    facts: &mut Vec<Fact>,
    line: &Line<u32>,
    fact: &Fact,
) -> Result<(), AllocError>
    requires { computed line.now ≡ Some fact.now }
    ensures { OnOk result (facts.new.items ≡ after line.now facts.old.items) }
{
    let value = canonical(facts.as_slice(), fact.value);
    let made = known_of(fact, &value);
    let other = noted(facts.as_slice(), fact, &value);
    let increment = increment_of(facts.as_slice(), fact, &value);
    keep(alloc, facts, increment, line)?;
    note(facts, made)?;
    note(facts, other)?;
    Ok(())
}

/// Takes what is known before a line to what is known behind it.
///
/// # Errors
///
/// Only where memory was refused.
pub(crate) fn pass(alloc: Global, facts: &mut Vec<Fact>, line: &Line<u32>) -> Result<(), AllocError>
    ensures { OnOk result (facts.new.items ≡ after line.now facts.old.items) }
{
    match computed(line) {
        Some(fact) => pass_over(alloc, facts, line, &fact),
        None => {
            leave(facts, line);
            Ok(())
        }
    }
}
