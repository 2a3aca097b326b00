//! What is known on the ways that a jump leads.
ghost use Rattle.std.specs.Prelude.{◌≡◌, ◌-◌, ◌^◌, ◌&&◌, ◌||◌, true, IfSome};
ghost use Rattle.vcode.specs.declared.place.Operand.TheVariants.{At};
ghost use Rattle.value_numbering.specs.declared.fact.Expression.TheVariants.{Growing};
ghost use Rattle.value_numbering.specs.Known.{canonical, IsIn};
ghost use Rattle.sign_extensions.specs.Whole.{is_marked};
ghost use Rattle.value_numbering.specs.Steps.{is_word};
ghost use Rattle.value_numbering.specs.Reused.{order_of, before, next, is_least, is_most, at_least, at_most, order_met, order_missed, holds_word, is_limit, limits, bounds, exceeds, IsKnown, AllKnown};

use crate::fact::{Expression, Fact, names};
use crate::known::canonical;
use crate::same::same_fact;
use crate::steps::{is_word, stands};
use il_ast::{Class, Condition};
use sign_extensions::marks::is_marked;
use vcode::{Comparison, Operand};

/// Of two operands, as signed numbers of a class, one is less.
#[derive(Clone, Copy)]
pub(crate) struct Order {
    pub(crate) class: Class,
    pub(crate) less: Operand<u32>,
    pub(crate) more: Operand<u32>,
}

fn order_of(class: Class, less: Operand<u32>, more: Operand<u32>) -> Option<Order>
    ensures { result ≡ order_of class less more }
{
    Some(Order { class, less, more })
}

/// The number before it, modulo 2^64.
fn before(number: u64) -> u64
    ensures { result ≡ before number }
{
    number.wrapping_sub(1)
}

/// The number behind it, modulo 2^64.
fn next(number: u64) -> u64
    ensures { result ≡ next number }
{
    number.wrapping_add(1)
}

/// Whether no signed number of the class is less.
fn is_least(class: Class, number: u64) -> bool
    ensures { result ≡ is_least class number }
{
    match class {
        Class::W => number % 0x1_0000_0000 == 0x8000_0000,
        Class::L => number == 0x8000_0000_0000_0000,
    }
}

/// Whether none is more.
fn is_most(class: Class, number: u64) -> bool
    ensures { result ≡ is_most class number }
{
    match class {
        Class::W => number % 0x1_0000_0000 == 0x7fff_ffff,
        Class::L => number == 0x7fff_ffff_ffff_ffff,
    }
}

/// What is no less than a number is more than the one before it.
fn at_least(class: Class, more: Operand<u32>, least: Operand<u32>) -> Option<Order>
    ensures { result ≡ at_least class more least }
{
    match least {
        Operand::Number(number) => {
            if is_least(class, number) {
                None
            } else {
                order_of(class, Operand::Number(before(number)), more)
            }
        }
        _ => None,
    }
}

/// What is no more than a number is less than the one behind it.
fn at_most(class: Class, less: Operand<u32>, most: Operand<u32>) -> Option<Order>
    ensures { result ≡ at_most class less most }
{
    match most {
        Operand::Number(number) => {
            if is_most(class, number) {
                None
            } else {
                order_of(class, less, Operand::Number(next(number)))
            }
        }
        _ => None,
    }
}

/// What a comparison says where it holds.
pub(crate) fn order_met(on: &Comparison<u32>) -> Option<Order>
    ensures { result ≡ order_met on.now.condition on.now.class on.now.left on.now.right }
{
    match on.condition {
        Condition::SignedLess => order_of(on.class, on.left, on.right),
        Condition::SignedGreater => order_of(on.class, on.right, on.left),
        Condition::SignedGreaterEqual => at_least(on.class, on.left, on.right),
        Condition::SignedLessEqual => at_most(on.class, on.left, on.right),
        _ => None,
    }
}

/// What a comparison says where it doesn't hold.
pub(crate) fn order_missed(on: &Comparison<u32>) -> Option<Order>
    ensures { result ≡ order_missed on.now.condition on.now.class on.now.left on.now.right }
{
    match on.condition {
        Condition::SignedGreaterEqual => order_of(on.class, on.left, on.right),
        Condition::SignedLessEqual => order_of(on.class, on.right, on.left),
        Condition::SignedLess => at_least(on.class, on.left, on.right),
        Condition::SignedGreater => at_most(on.class, on.left, on.right),
        _ => None,
    }
}

fn is_listed(facts: &[Fact], wanted: &Fact) -> bool
    ensures { result ≡ true → IsIn wanted.now facts.now }
{
    for fact in facts {
        if same_fact(fact, wanted) {
            return true;
        }
    }
    false
}

/// Whether the fact is known of registers that are no copies.
fn is_of_copies(facts: &[Fact], wanted: &Fact) -> bool
    ensures { result ≡ true → IsIn (record { register = wanted.now.register; value = canonical facts.now wanted.now.value }) facts.now }
{
    let copied = Fact {
        register: wanted.register,
        value: canonical(facts, wanted.value),
    };
    is_listed(facts, &copied)
}

/// Whether it is worth to look for it of registers that are no copies.
pub(crate) fn is_linear(value: Expression) -> bool {
    matches!(value, Expression::Linear(_, _, _, _))
}

/// Whether the register holds a word that stands extended: it never holds anything else by its mark, or it is known here.
fn holds_word(marks: &[bool], facts: &[Fact], register: u32) -> bool
    ensures { result ≡ holds_word marks.now facts.now register }
{
    is_marked(marks, register) || is_word(facts, register)
}

/// Whether the operand is known to be a word that stands extended.
fn is_limit(marks: &[bool], facts: &[Fact], operand: Operand<u32>) -> bool
    ensures { result ≡ is_limit marks.now facts.now operand }
{
    match operand {
        Operand::At(register) => holds_word(marks, facts, register),
        Operand::Number(number) => stands(number),
        Operand::Name(_) => false,
    }
}

/// Whether what is less or more than the operand as a number of this class is so than a word.
fn limits(marks: &[bool], facts: &[Fact], class: Class, operand: Operand<u32>) -> bool
    ensures { result ≡ limits marks.now facts.now class operand }
{
    match class {
        Class::W => true,
        Class::L => is_limit(marks, facts, operand),
    }
}

/// Whether the register is less than a word.
fn bounds(marks: &[bool], facts: &[Fact], order: &Option<Order>, register: u32) -> bool
    ensures { result ≡ bounds marks.now facts.now order.now register }
{
    match order {
        Some(order) => names(register, order.less) && limits(marks, facts, order.class, order.more),
        None => false,
    }
}

/// Whether the register is more than a word.
fn exceeds(marks: &[bool], facts: &[Fact], order: &Option<Order>, register: u32) -> bool
    ensures { result ≡ exceeds marks.now facts.now order.now register }
{
    match order {
        Some(order) => {
            names(register, order.more) && limits(marks, facts, order.class, order.less)
        }
        None => false,
    }
}

/// Whether one more than the register is the same as a word and as a long, which follows from the order.
pub(crate) fn may_grow(marks: &[bool], facts: &[Fact], order: &Option<Order>, register: u32) -> bool
    ensures { result ≡ (bounds marks.now facts.now order.now register && holds_word marks.now facts.now register) }
{
    bounds(marks, facts, order, register) && holds_word(marks, facts, register)
}

/// The same of one less.
pub(crate) fn may_shrink(
    marks: &[bool],
    facts: &[Fact],
    order: &Option<Order>,
    register: u32,
) -> bool
    ensures { result ≡ (exceeds marks.now facts.now order.now register && holds_word marks.now facts.now register) }
{
    exceeds(marks, facts, order, register) && holds_word(marks, facts, register)
}

/// The register that a value says that of, with this number.
fn growing_by(value: Expression, number: u64) -> Option<u32>
    ensures { IfSome result (λ r. value ≡ Growing (At r) number) }
{
    match value {
        Expression::Growing(Operand::At(register), by) => {
            if by == number { Some(register) } else { None }
        }
        _ => None,
    }
}

/// Whether the fact says that of its register.
fn is_bounded(marks: &[bool], facts: &[Fact], order: &Option<Order>, wanted: &Fact) -> bool
    ensures { result ≡ true → IsKnown marks.now facts.now order.now wanted.now }
{
    match growing_by(wanted.value, 1) {
        Some(register) => {
            if register != wanted.register {
                return false;
            }
            may_grow(marks, facts, order, register)
        }
        None => false,
    }
}

/// The same of one less.
fn is_above(marks: &[bool], facts: &[Fact], order: &Option<Order>, wanted: &Fact) -> bool
    ensures { result ≡ true → IsKnown marks.now facts.now order.now wanted.now }
{
    match growing_by(wanted.value, u64::MAX) {
        Some(register) => {
            if register != wanted.register {
                return false;
            }
            may_shrink(marks, facts, order, register)
        }
        None => false,
    }
}

/// Whether the fact is known on the way on which this order holds.
pub(crate) fn is_known(marks: &[bool], facts: &[Fact], order: &Option<Order>, wanted: &Fact) -> bool
    ensures { result ≡ true → IsKnown marks.now facts.now order.now wanted.now }
{
    if is_listed(facts, wanted) {
        return true;
    }
    if is_linear(wanted.value) {
        return is_of_copies(facts, wanted);
    }
    if is_bounded(marks, facts, order, wanted) {
        return true;
    }
    is_above(marks, facts, order, wanted)
}

/// Whether all these facts are known there.
pub(crate) fn are_known(
    marks: &[bool],
    facts: &[Fact],
    order: &Option<Order>,
    wanted: &[Fact],
) -> bool
    ensures { result ≡ true → AllKnown marks.now facts.now order.now wanted.now }
{
    for fact in wanted {
        if !is_known(marks, facts, order, fact) {
            return false;
        }
    }
    true
}
