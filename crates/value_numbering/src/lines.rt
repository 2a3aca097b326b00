//! Lines that are done again.
ghost use Rattle.std.specs.Prelude.{◌≡◌, ◌<◌, ℕ, Bool, List, true, IfOk, IfSome, OnOk};
ghost use Rattle.vcode.specs.declared.line.Jump.{Jump as AJump};
ghost use Rattle.value_numbering.specs.declared.fact.Fact.{Fact as AFact};
ghost use Rattle.value_numbering.specs.Known.{canonical};
ghost use Rattle.value_numbering.specs.Reused.{Holds, Made, LeadsWell, AreReused};

use crate::extensions::{itself, reloaded_line};
use crate::fact::{Expression, Fact, computed};
use crate::known::{canonical, holder};
use crate::narrow::narrow;
use crate::regroup::regrouped_line;
use crate::shifts::halfway_line;
use crate::steps::{linear_in, pass};
use rv_isa::RegOp;
use std::alloc::{AllocError, Global};
use vcode::cost::line_cost;
use vcode::{Line, Operand, Operation};

fn is_no_number(operand: Operand<u32>) -> bool {
    match operand {
        Operand::Number(_) => false,
        _ => true,
    }
}

/// Whether a copy costs no more.
pub(crate) fn is_dear(value: Expression) -> bool {
    match value {
        Expression::Same(_) => false,
        Expression::Operated(_, _, _) | Expression::Extended(_, _, _) => true,
        Expression::Loaded(_, base, _) => is_no_number(base),
        Expression::Linear(_, _, _, _) | Expression::Growing(_, _) => false,
    }
}

/// Whether it is worth a register: a sum with a number mostly becomes an offset of an address.
pub(crate) fn is_worth(value: Expression) -> bool {
    match value {
        Expression::Operated(Operation::Reg(RegOp::Add), _, Operand::Number(_)) => false,
        _ => true,
    }
}

/// Whether something is known as linear in a register.
fn has_linear(facts: &[Fact]) -> bool {
    facts.iter().any(|fact| matches!(fact.value, Expression::Linear(_, _, _, _)))
}

/// Whether something is known as the sum of the register and a product: a copy of the register is then worth more than a sum with a number.
fn is_base(facts: &[Fact], register: u32) -> bool {
    facts.iter().any(|fact| match fact.value {
        Expression::Linear(Operand::At(base), _, _, _) => base == register,
        _ => false,
    })
}

/// A register that is known to hold a sum with a product as what is linear in a register that grows.
fn counted(facts: &[Fact], registers: u32, value: &Expression) -> Option<u32>
    ensures low { IfSome result (λ r. r < registers) }
    ensures holds { IfSome result (λ r. Holds facts.now r value.now) }
{
    match linear_in(facts, *value) {
        Some(linear) => match holder(facts, registers, &linear) {
            Some(register) => Some(register),
            None => None,
        },
        None => None,
    }
}

/// A register of the function that holds a value.
fn held(facts: &[Fact], registers: u32, value: &Expression) -> Option<u32>
    ensures low { IfSome result (λ r. r < registers) }
    ensures holds { IfSome result (λ r. Holds facts.now r value.now) }
{
    match holder(facts, registers, value) {
        Some(register) => Some(register),
        None => match itself(facts, registers, value) {
            Some(register) => Some(register),
            None => counted(facts, registers, value),
        },
    }
}

/// The register that holds what a line computes, if it is to be copied.
fn reused(facts: &[Fact], registers: u32, fact: &Fact) -> Option<u32>
    ensures low { IfSome result (λ r. r < registers) }
    ensures holds { IfSome result (λ r. Holds facts.now r (canonical facts.now fact.now.value)) }
{
    if !is_dear(fact.value) || !(is_worth(fact.value) || has_linear(facts)) {
        return None;
    }
    match held(facts, registers, &canonical(facts, fact.value)) {
        Some(register) => {
            if is_worth(fact.value) || is_base(facts, register) {
                Some(register)
            } else {
                None
            }
        }
        None => None,
    }
}

/// The copy that may stand in the place of a line.
fn copy(facts: &[Fact], registers: u32, line: &Line<u32>) -> Option<Line<u32>>
    ensures { IfSome result (λ m. Made registers facts.now line.now m) }
{
    match computed(line) {
        Some(fact) => match reused(facts, registers, &fact) {
            Some(register) => Some(Line::Set {
                to: fact.register,
                value: Operand::At(register),
            }),
            None => None,
        },
        None => None,
    }
}

/// The line with another register in the place of one, where that does as well.
fn narrower(facts: &[Fact], registers: u32, line: &Line<u32>) -> Option<Line<u32>>
    ensures { IfSome result (λ m. Made registers facts.now line.now m) }
{
    match line {
        Line::Store { size, value, at } => match narrow(facts, registers, *size, *value) {
            Some(register) => Some(Line::Store {
                size: *size,
                value: Operand::At(register),
                at: *at,
            }),
            None => None,
        },
        _ => None,
    }
}

/// A line that computes the same of other registers, or loads it.
fn other(facts: &[Fact], registers: u32, line: &Line<u32>) -> Option<Line<u32>>
    ensures { IfSome result (λ m. Made registers facts.now line.now m) }
{
    match regrouped_line(facts, registers, line) {
        Some(sum) => Some(sum),
        None => match halfway_line(facts, registers, line) {
            Some(shift) => Some(shift),
            None => reloaded_line(facts, registers, line),
        },
    }
}

/// A line that computes the same otherwise, or the copy of what that holds.
fn recomputed(facts: &[Fact], registers: u32, line: &Line<u32>) -> Option<Line<u32>>
    ensures { IfSome result (λ m. Made registers facts.now line.now m) }
{
    match other(facts, registers, line) {
        Some(other) => match copy(facts, registers, &other) {
            Some(copy) => Some(copy),
            None => Some(other),
        },
        None => None,
    }
}

/// The line that may stand in the place of one.
pub(crate) fn changed(facts: &[Fact], registers: u32, line: &Line<u32>) -> Option<Line<u32>>
    ensures { IfSome result (λ m. Made registers facts.now line.now m) }
{
    if let Line::Tick { .. } = line {
        return None;
    }
    match copy(facts, registers, line) {
        Some(copy) => Some(copy),
        None => match recomputed(facts, registers, line) {
            Some(other) => Some(other),
            None => narrower(facts, registers, line),
        },
    }
}

/// The line that may stand in the place of one; where that is to be thrifty, only if it costs no more.
fn cheap(facts: &[Fact], registers: u32, is_thrifty: bool, line: &Line<u32>) -> Option<Line<u32>>
    ensures { IfSome result (λ m. Made registers facts.now line.now m) }
{
    match changed(facts, registers, line) {
        Some(changed) => {
            if is_thrifty && line_cost(&changed) > line_cost(line) {
                None
            } else {
                Some(changed)
            }
        }
        None => None,
    }
}

/// A line, or one in its place that does the same.
fn made(
    alloc: Global,
    facts: &[Fact],
    registers: u32,
    is_thrifty: bool,
    line: &Line<u32>,
) -> Result<Line<u32>, AllocError>
    ensures { IfOk result (λ m. Made registers facts.now line.now m) }
{
    match cheap(facts, registers, is_thrifty, line) {
        Some(changed) => Ok(changed),
        None => line.try_clone(alloc),
    }
}

/// The lines, with copies in the place of some. The facts become those that are known behind them.
pub(crate) fn lines(
    alloc: Global,
    facts: &mut Vec<Fact>,
    registers: u32,
    is_thrifty: bool,
    from: &[Line<u32>],
) -> Result<Vec<Line<u32>>, AllocError>
    ensures { IfOk result (λ v. (marks : List Bool) (claims : List (List AFact)) (j : AJump ℕ) → LeadsWell marks claims facts.new.items j → AreReused registers marks claims facts.old.items from.now v.items j) }
{
    let mut all = Vec::with_capacity(alloc, from.len())?;
    for line in from {
        let made = made(alloc, facts.as_slice(), registers, is_thrifty, line)?;
        pass(alloc, facts, &made)?;
        all.push(made)?;
    }
    Ok(all)
}
