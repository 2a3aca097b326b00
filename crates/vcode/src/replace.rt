//! Lines and jumps in which other operands stand.
ghost use Rattle.std.specs.Prelude.{◌≡◌, ◌++◌, ℕ, map, OnOk, IfOk};
ghost use Rattle.vcode.specs.declared.place.Operand.{Operand as AnOperand};
ghost use Rattle.vcode.specs.Replaced.{with_base, with_argument, with_returned, with_line, with_comparison, with_jump};

use crate::line::{Comparison, Jump, Line};
use crate::place::{Address, Argument, Operand, ReturnValue};
use il_ast::Seq;
use std::alloc::{AllocError, Global};

/// A way to read operands: which one stands in the place of each.
pub trait Replace {
    /// The operand that stands in the place of another.
    ghost replacing: { Self → AnOperand ℕ → AnOperand ℕ };

    /// The operand that stands in the place of another.
    fn operand(&self, from: &Operand<u32>) -> Operand<u32>
        ensures { result ≡ replacing self.now from.now };
}

/// The address whose base is put by this way; its offset stays.
pub fn address<R: Replace>(by: &R, from: &Address<u32>) -> Address<u32>
    ensures { result ≡ with_base (R.replacing by.now) from.now }
{
    Address {
        base: by.operand(&from.base),
        offset: from.offset,
    }
}

fn argument<R: Replace>(by: &R, from: &Argument<u32>) -> Argument<u32>
    ensures { result ≡ with_argument (R.replacing by.now) from.now }
{
    Argument {
        class: from.class,
        value: by.operand(&from.value),
        extension: from.extension,
    }
}

fn push_arguments<R: Replace>(
    by: &R,
    to: &mut Seq<Argument<u32>>,
    args: &[Argument<u32>],
) -> Result<(), AllocError>
    ensures { OnOk result (to.new ≡ to.old ++ map (with_argument (R.replacing by.now)) args.now) }
{
    for arg in args {
        to.push(argument(by, arg))?;
    }
    Ok(())
}

/// The arguments, each put by this way.
///
/// # Errors
///
/// Only where memory was refused.
pub fn arguments<R: Replace>(
    alloc: Global,
    by: &R,
    args: &[Argument<u32>],
) -> Result<Seq<Argument<u32>>, AllocError>
    ensures { IfOk result (λ v. v ≡ map (with_argument (R.replacing by.now)) args.now) }
{
    let mut to = Seq::new(alloc);
    push_arguments(by, &mut to, args)?;
    Ok(to)
}

/// The line with all its operands put by this way; what it writes stays.
///
/// # Errors
///
/// Only where memory was refused.
pub fn line<R: Replace>(alloc: Global, by: &R, from: &Line<u32>) -> Result<Line<u32>, AllocError>
    ensures { IfOk result (λ v. v ≡ with_line (R.replacing by.now) from.now) }
{
    Ok(match from {
        Line::Tick { turn, weight } => Line::Tick {
            turn: *turn,
            weight: *weight,
        },
        Line::Set { to, value } => Line::Set {
            to: *to,
            value: by.operand(value),
        },
        Line::Operate {
            to,
            operation,
            left,
            right,
        } => Line::Operate {
            to: *to,
            operation: *operation,
            left: by.operand(left),
            right: by.operand(right),
        },
        Line::Load { to, op, at } => Line::Load {
            to: *to,
            op: *op,
            at: address(by, at),
        },
        Line::Store { size, value, at } => Line::Store {
            size: *size,
            value: by.operand(value),
            at: address(by, at),
        },
        Line::Alloc { to, size } => Line::Alloc {
            to: *to,
            size: *size,
        },
        Line::Blit { from, to, count } => Line::Blit {
            from: by.operand(from),
            to: by.operand(to),
            count: *count,
        },
        Line::Call { to, callee, args } => Line::Call {
            to: *to,
            callee: by.operand(callee),
            args: arguments(alloc, by, args.as_slice())?,
        },
    })
}

/// The comparison with both operands put by this way.
pub fn comparison<R: Replace>(by: &R, from: &Comparison<u32>) -> Comparison<u32>
    ensures { result ≡ with_comparison (R.replacing by.now) from.now }
{
    Comparison {
        condition: from.condition,
        class: from.class,
        left: by.operand(&from.left),
        right: by.operand(&from.right),
    }
}

/// What is returned, put by this way.
pub fn returned<R: Replace>(by: &R, from: &ReturnValue<u32>) -> ReturnValue<u32>
    ensures { result ≡ with_returned (R.replacing by.now) from.now }
{
    ReturnValue {
        value: by.operand(&from.value),
        extension: from.extension,
    }
}

/// The jump with all its operands put by this way; where it leads stays.
pub fn jump<R: Replace>(by: &R, from: &Jump<u32>) -> Jump<u32>
    ensures { result ≡ with_jump (R.replacing by.now) from.now }
{
    match from {
        Jump::Goto(block) => Jump::Goto(*block),
        Jump::Branch { on, met, otherwise } => Jump::Branch {
            on: comparison(by, on),
            met: *met,
            otherwise: *otherwise,
        },
        Jump::Return(None) => Jump::Return(None),
        Jump::Return(Some(value)) => Jump::Return(Some(returned(by, value))),
        Jump::Halt => Jump::Halt,
    }
}
