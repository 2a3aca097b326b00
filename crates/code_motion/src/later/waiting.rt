//! Operations that are put off, and the lines over which they may be.
ghost use Rattle.std.specs.Prelude.{◌≡◌, true, IfSome};
ghost use Rattle.std.specs.List.{list_all};
ghost use Rattle.vcode.specs.Prelude.{operand_keeps, wanted_keeps, made_keeps, line_keeps, line_writes};
ghost use Rattle.code_motion.specs.Later.{line_of, asks_nothing, differs, may_wait, is_spared, lets_wait};

use cfg_live::uses::line_writes;
use vcode::{Argument, Destination, Line, Operand, Operation};

/// An operation that is put off.
#[derive(Clone, Copy)]
pub(crate) struct Waiting {
    pub(crate) to: u32,
    pub(crate) operation: Operation,
    pub(crate) left: Operand<u32>,
    pub(crate) right: Operand<u32>,
}

impl Waiting {
    /// The line that does it.
    pub(crate) fn line(&self) -> Line<u32>
        ensures { result ≡ line_of self.now }
    {
        Line::Operate {
            to: self.to,
            operation: self.operation,
            left: self.left,
            right: self.right,
        }
    }
}

fn asks_nothing(operation: Operation) -> bool
    ensures { result ≡ asks_nothing operation }
{
    match operation {
        Operation::Reg(_) => true,
        Operation::RegW(_) => true,
        Operation::Compare(_, _) => false,
    }
}

fn differs(register: u32, other: u32) -> bool
    ensures { result ≡ differs register other }
{
    register != other
}

fn operand(register: u32, value: &Operand<u32>) -> bool
    ensures { result ≡ operand_keeps (differs register) value.now }
{
    match value {
        Operand::At(other) => differs(register, *other),
        Operand::Number(_) => true,
        Operand::Name(_) => true,
    }
}

/// Whether it may be put off at all: it gives the same whatever memory is, and doesn't read what it writes.
fn may_wait(waiting: &Waiting) -> bool
    ensures { result ≡ may_wait waiting.now }
{
    asks_nothing(waiting.operation)
        && operand(waiting.to, &waiting.left)
        && operand(waiting.to, &waiting.right)
}

/// The operation that a line does, if it may be put off.
pub(crate) fn operation_of(line: &Line<u32>) -> Option<Waiting>
    ensures line { IfSome result (λ p. line.now ≡ line_of p) }
    ensures may { IfSome result (λ p. may_wait p ≡ true) }
{
    match line {
        Line::Operate {
            to,
            operation,
            left,
            right,
        } => {
            let waiting = Waiting {
                to: *to,
                operation: *operation,
                left: *left,
                right: *right,
            };
            if may_wait(&waiting) {
                Some(waiting)
            } else {
                None
            }
        }
        _ => None,
    }
}

fn made(register: u32, to: &Option<u32>) -> bool
    ensures { result ≡ made_keeps (differs register) to.now }
{
    match to {
        Some(other) => differs(register, *other),
        None => true,
    }
}

fn wanted(register: u32, to: &Option<Destination<u32>>) -> bool
    ensures { result ≡ wanted_keeps (differs register) to.now }
{
    match to {
        Some(result) => differs(register, result.place),
        None => true,
    }
}

/// Whether none of the arguments is the register.
pub(crate) fn names_none(register: u32, args: &[Argument<u32>]) -> bool
    ensures { result ≡ list_all (λ a. operand_keeps (differs register) a.value) args.now }
{
    for arg in args {
        if !operand(register, &arg.value) {
            return false;
        }
    }
    true
}

/// Whether the line names no such register.
pub(crate) fn names_no(register: u32, line: &Line<u32>) -> bool
    ensures { result ≡ line_keeps (differs register) line.now }
{
    match line {
        Line::Tick { .. } => true,
        Line::Set { to, value } => differs(register, *to) && operand(register, value),
        Line::Operate {
            to,
            left,
            right,
            ..
        } => differs(register, *to) && operand(register, left) && operand(register, right),
        Line::Load { to, at, .. } => differs(register, *to) && operand(register, &at.base),
        Line::Store { value, at, .. } => operand(register, value) && operand(register, &at.base),
        Line::Alloc { to, .. } => made(register, to),
        Line::Blit { from, to, .. } => operand(register, from) && operand(register, to),
        Line::Call { to, callee, args } => {
            wanted(register, to)
                && operand(register, callee)
                && names_none(register, args.as_slice())
        }
    }
}

/// Whether the operand isn't what is written.
fn is_spared(written: Option<u32>, value: &Operand<u32>) -> bool
    ensures { result ≡ is_spared written value.now }
{
    match written {
        Some(register) => operand(register, value),
        None => true,
    }
}

/// Whether the operation may be put off over the line.
pub(crate) fn lets_wait(waiting: &Waiting, line: &Line<u32>) -> bool
    ensures { result ≡ lets_wait waiting.now line.now }
{
    let written = line_writes(line);
    names_no(waiting.to, line)
        && is_spared(written, &waiting.left)
        && is_spared(written, &waiting.right)
}
