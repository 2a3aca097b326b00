//! Lines of code, and what ends a block.
ghost use Rattle.std.specs.Prelude.{◌≡◌, ◌++◌, IfOk, OnOk};

use crate::place::{Address, Argument, Destination, Operand, ReturnValue};
use il_ast::{Class, Condition, Seq, Size};
use rv_isa::{LoadOp, RegOp, RegWOp};
use std::alloc::{AllocError, Global};

/// An operation on two operands.
#[derive(Clone, Copy, PartialEq, Eq)]
pub enum Operation {
    /// of the machine, on 64 bits
    Reg(RegOp),
    /// of the machine, on the low 32 bits, with a result that is sign-extended
    RegW(RegWOp),
    /// the source's comparison of two values of a class
    Compare(Condition, Class),
}

/// A line of code over places P.
#[derive(Drop)]
pub enum Line<P> {
    /// Spends weight, and begins a turn of the source if `turn`. All other lines spend nothing but what their calls spend.
    Tick {
        turn: bool,
        weight: u32,
    },
    /// `to` takes what the operand holds as it is; where that is unknown, so is `to`.
    Set {
        to: P,
        value: Operand<P>,
    },
    /// `to` takes what the operation gives; where that is nothing, or an operand is unknown, `to` is unknown.
    Operate {
        to: P,
        operation: Operation,
        left: Operand<P>,
        right: Operand<P>,
    },
    /// `to` takes what memory has, extended to 64 bits as the machine's load does.
    Load {
        to: P,
        op: LoadOp,
        at: Address<P>,
    },
    Store {
        size: Size,
        value: Operand<P>,
        at: Address<P>,
    },
    /// Makes a fresh block of that many bytes, which lives until the return; `to` takes a pointer to it.
    Alloc {
        to: Option<P>,
        size: u64,
    },
    /// Copies that many bytes.
    Blit {
        from: Operand<P>,
        to: Operand<P>,
        count: u64,
    },
    Call {
        to: Option<Destination<P>>,
        callee: Operand<P>,
        args: Seq<Argument<P>>,
    },
}

impl<P: Copy> Line<P> {
    /// The same line.
    ///
    /// # Errors
    ///
    /// Only where memory was refused.
    pub fn try_clone(&self, alloc: Global) -> Result<Line<P>, AllocError>
        ensures { IfOk result (λ v. v ≡ self.now) }
    {
        match self {
            Line::Tick { turn, weight } => Ok(Line::Tick {
                turn: *turn,
                weight: *weight,
            }),
            Line::Set { to, value } => Ok(Line::Set {
                to: *to,
                value: *value,
            }),
            Line::Operate {
                to,
                operation,
                left,
                right,
            } => Ok(Line::Operate {
                to: *to,
                operation: *operation,
                left: *left,
                right: *right,
            }),
            Line::Load { to, op, at } => Ok(Line::Load {
                to: *to,
                op: *op,
                at: *at,
            }),
            Line::Store { size, value, at } => Ok(Line::Store {
                size: *size,
                value: *value,
                at: *at,
            }),
            Line::Alloc { to, size } => Ok(Line::Alloc {
                to: *to,
                size: *size,
            }),
            Line::Blit { from, to, count } => Ok(Line::Blit {
                from: *from,
                to: *to,
                count: *count,
            }),
            Line::Call { to, callee, args } => Ok(Line::Call {
                to: *to,
                callee: *callee,
                args: args.try_clone(alloc)?,
            }),
        }
    }
}

/// Puts copies of these lines at the end of a list.
///
/// # Errors
///
/// Only where memory was refused.
pub fn push_lines<P: Copy>(
    alloc: Global,
    to: &mut Vec<Line<P>>,
    lines: &[Line<P>],
) -> Result<(), AllocError>
    ensures { OnOk result (to.new.items ≡ to.old.items ++ lines.now) }
{
    for line in lines {
        to.push(line.try_clone(alloc)?)?;
    }
    Ok(())
}

/// A comparison of two values of a class, as the source makes it.
#[derive(Copy)]
pub struct Comparison<P> {
    pub condition: Condition,
    pub class: Class,
    pub left: Operand<P>,
    pub right: Operand<P>,
}

impl<P: Copy> Clone for Comparison<P> {
    fn clone(&self) -> Result<Comparison<P>, AllocError> {
        Ok(*self)
    }
}

/// What ends a block. Blocks are named by their place in the function.
#[derive(Copy)]
pub enum Jump<P> {
    Goto(usize),
    /// to `met` where the comparison holds, else to `otherwise`
    Branch {
        on: Comparison<P>,
        met: usize,
        otherwise: usize,
    },
    /// from the function, with a value of its result's class or with none
    Return(Option<ReturnValue<P>>),
    /// ends the run
    Halt,
}

impl<P: Copy> Clone for Jump<P> {
    fn clone(&self) -> Result<Jump<P>, AllocError> {
        Ok(*self)
    }
}
