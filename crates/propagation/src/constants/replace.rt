//! Lines and jumps, put by what is known of registers.
ghost use Rattle.std.specs.Prelude.{◌≡◌, ◌++◌, ◌%◌, ℕ, true, false, nat_eq, if◌then◌else◌, map, drop, length, OnOk, IfOk, Some, None};
ghost use Rattle.std.specs.Option.{option_map, option_map_or};
ghost use Rattle.vcode.specs.declared.place.Operand.TheVariants.{At};
ghost use Rattle.vcode.specs.declared.line.Jump.TheVariants.{Branch};
ghost use Rattle.vcode.specs.Prelude.{distance, is_immediate, with_base, with_returned, with_comparison};
ghost use Rattle.propagation.specs.FactTable.{facts_of, shortened};
ghost use Rattle.propagation.specs.Forwarded.{is_short, propagate, regrouped, grouped, operands_of, further, with_address, with_line, tested_by, afforded, with_test, with_branch, numbers_hold, with_outcome, with_jump, is_add};

use crate::constants::fact::Fact;
use crate::constants::strength_reduction::shortened;
use crate::constants::table::FactTable;
use il_ast::condition::numbers_hold;
use il_ast::{Class, Condition};
use rv_isa::RegOp;
use std::alloc::{AllocError, Global};
use vcode::cost::{affords, is_immediate};
use vcode::replace::{address as with_base, comparison, line as put_operands, returned};
use vcode::{Address, Comparison, Jump, Line, Operand, Operation, Replace};

pub(crate) fn is_short(operand: &Operand<u32>) -> bool
    ensures { result ≡ is_short operand.now }
{
    match operand {
        Operand::At(_) => true,
        Operand::Number(number) => is_immediate(*number),
        Operand::Name(_) => false,
    }
}

/// What the register is a copy of, where that may take its place.
fn in_place(copy: Option<Operand<u32>>, register: u32) -> Operand<u32>
    ensures { result ≡ option_map_or (λ a. if is_short a then a else At register) copy (At register) }
{
    match copy {
        Some(operand) => if is_short(&operand) {
            operand
        } else {
            Operand::At(register)
        },
        None => Operand::At(register),
    }
}

/// What a register is known to be a copy of, in its place.
fn copied(table: &FactTable, register: u32) -> Operand<u32>
    ensures { result ≡ propagate (facts_of table.now) (At register) }
{
    in_place(table.copy(register), register)
}

impl Replace for FactTable {
    ghost replacing = { λ t. propagate (facts_of t) };

    fn operand(&self, from: &Operand<u32>) -> Operand<u32> {
        match from {
            Operand::At(register) => copied(self, *register),
            other => *other,
        }
    }
}

/// A sum with a number of what is known to be one is a sum with a number.
fn regrouped(known: Option<Fact>, register: u32, number: u64) -> (Operand<u32>, Operand<u32>)
    ensures { result ≡ regrouped known register number }
{
    match known {
        Some(Fact::Sum(Operand::At(base), first)) => {
            let sum = first.wrapping_add(number);
            if is_immediate(sum) {
                (Operand::At(base), Operand::Number(sum))
            } else {
                (Operand::At(register), Operand::Number(number))
            }
        }
        _ => (Operand::At(register), Operand::Number(number)),
    }
}

fn grouped(
    table: &FactTable,
    left: Operand<u32>,
    right: Operand<u32>,
) -> (Operand<u32>, Operand<u32>)
    ensures { result ≡ grouped (facts_of table.now) left right }
{
    match (left, right) {
        (Operand::At(register), Operand::Number(number)) => {
            regrouped(table.fact(register), register, number)
        }
        _ => (left, right),
    }
}

/// Whether the operation adds 64 bits.
pub(crate) fn is_add(operation: Operation) -> bool
    ensures { result ≡ is_add operation }
{
    match operation {
        Operation::Reg(RegOp::Add) => true,
        _ => false,
    }
}

fn operands(
    table: &FactTable,
    operation: Operation,
    left: &Operand<u32>,
    right: &Operand<u32>,
) -> (Operand<u32>, Operand<u32>)
    ensures { result ≡ operands_of (facts_of table.now) operation left.now right.now }
{
    let left = table.operand(left);
    let right = table.operand(right);
    if is_add(operation) {
        grouped(table, left, right)
    } else {
        (left, right)
    }
}

fn distance(at: &Address<u32>) -> u64
    ensures { result ≡ distance at.now }
{
    i64::from(at.offset.value).cast_unsigned()
}

/// An address from what its base is known to be a sum of, where the offset still fits.
fn further(at: Address<u32>, known: Option<Fact>) -> Address<u32>
    ensures { result ≡ further at known }
{
    match known {
        Some(Fact::Sum(Operand::At(base), number)) => {
            let sum = number.wrapping_add(distance(&at));
            if sum != 0 && is_immediate(sum) {
                Address::beyond(Operand::At(base), sum)
            } else {
                at
            }
        }
        _ => at,
    }
}

fn address(table: &FactTable, from: &Address<u32>) -> Address<u32>
    ensures { result ≡ with_address (facts_of table.now) from.now }
{
    let at = with_base(table, from);
    match at.base {
        Operand::At(register) => further(at, table.fact(register)),
        _ => at,
    }
}

/// The line with each operand put by what is known, in its short form.
///
/// # Errors
///
/// Only where memory was refused.
pub(crate) fn line(
    alloc: Global,
    table: &FactTable,
    from: &Line<u32>,
) -> Result<Line<u32>, AllocError>
    ensures { IfOk result (λ v. v ≡ shortened (with_line (facts_of table.now) from.now)) }
{
    Ok(match from {
        Line::Operate {
            to,
            operation,
            left,
            right,
        } => {
            let (left, right) = operands(table, *operation, left, right);
            shortened(Line::Operate {
                to: *to,
                operation: *operation,
                left,
                right,
            })
        }
        Line::Load { to, op, at } => Line::Load {
            to: *to,
            op: *op,
            at: address(table, at),
        },
        Line::Store { size, value, at } => Line::Store {
            size: *size,
            value: table.operand(value),
            at: address(table, at),
        },
        Line::Tick { .. }
        | Line::Set { .. }
        | Line::Alloc { .. }
        | Line::Blit { .. }
        | Line::Call { .. } => put_operands(alloc, table, from)?,
    })
}

/// The comparison whose result this one compares with 0.
fn tested(table: &FactTable, on: &Comparison<u32>) -> Option<Comparison<u32>>
    ensures { result ≡ tested_by (facts_of table.now) on.now.left on.now.right }
{
    match (on.left, on.right) {
        (Operand::At(register), Operand::Number(number)) => {
            if number != 0 {
                return None;
            }
            match table.fact(register) {
                Some(Fact::Test(test)) => Some(test),
                _ => None,
            }
        }
        _ => None,
    }
}

fn plain(on: Comparison<u32>, met: usize, otherwise: usize) -> Jump<u32>
    ensures { result ≡ Branch on met otherwise }
{
    Jump::Branch { on, met, otherwise }
}

/// A jump in place of another, if the lines pay for it.
fn afforded(lines: &[Line<u32>], old: Jump<u32>, new: Jump<u32>) -> Jump<u32>
    ensures { result ≡ afforded lines.now old new }
{
    if affords(lines, &new) { new } else { old }
}

/// A branch on the comparison whose result is tested, if the lines pay for it.
fn with_test(
    lines: &[Line<u32>],
    on: Comparison<u32>,
    met: usize,
    otherwise: usize,
    test: Comparison<u32>,
) -> Jump<u32>
    ensures { result ≡ with_test lines.now on.condition on met otherwise (Some test) }
{
    let condition = on.condition;
    let old = plain(on, met, otherwise);
    match condition {
        Condition::NotEqual => afforded(lines, old, plain(test, met, otherwise)),
        Condition::Equal => afforded(lines, old, plain(test, otherwise, met)),
        _ => old,
    }
}

fn branch(
    table: &FactTable,
    lines: &[Line<u32>],
    on: Comparison<u32>,
    met: usize,
    otherwise: usize,
) -> Jump<u32>
    ensures { result ≡ with_branch lines.now (facts_of table.now) on met otherwise }
{
    match tested(table, &on) {
        Some(test) => with_test(lines, on, met, otherwise, test),
        None => plain(on, met, otherwise),
    }
}

/// Whether a comparison of two numbers holds.
fn numbers_compared(
    condition: Condition,
    class: Class,
    left: Operand<u32>,
    right: Operand<u32>,
) -> Option<bool>
    ensures { result ≡ numbers_hold condition class left right }
{
    match (left, right) {
        (Operand::Number(left), Operand::Number(right)) => {
            Some(numbers_hold(condition, class, left, right))
        }
        _ => None,
    }
}

fn outcome(
    table: &FactTable,
    lines: &[Line<u32>],
    on: Comparison<u32>,
    met: usize,
    otherwise: usize,
) -> Jump<u32>
    ensures { result ≡ with_outcome lines.now (facts_of table.now) on met otherwise }
{
    match numbers_compared(on.condition, on.class, on.left, on.right) {
        Some(holds) => Jump::Goto(if holds { met } else { otherwise }),
        None => branch(table, lines, on, met, otherwise),
    }
}

/// The jump after these lines with each operand put by what is known; where it tests the result of a comparison it is a branch on that, if the lines pay for it,
/// and where it compares two numbers it is a jump.
pub(crate) fn jump(table: &FactTable, lines: &[Line<u32>], from: &Jump<u32>) -> Jump<u32>
    ensures { result ≡ with_jump lines.now (facts_of table.now) from.now }
{
    match from {
        Jump::Goto(block) => Jump::Goto(*block),
        Jump::Branch { on, met, otherwise } => {
            outcome(table, lines, comparison(table, on), *met, *otherwise)
        }
        Jump::Return(None) => Jump::Return(None),
        Jump::Return(Some(value)) => Jump::Return(Some(returned(table, value))),
        Jump::Halt => Jump::Halt,
    }
}
