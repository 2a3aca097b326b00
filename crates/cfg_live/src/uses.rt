//! What a point reads and writes.
ghost use Rattle.std.specs.Prelude.{◌≡◌, ◌++◌, [], ◌∷◌, drop, OnOk, IfOk};
ghost use Rattle.cfg_live.specs.Registers.{with_operand, with_args, line_reads, line_writes, jump_reads};

use il_ast::Few;
use std::alloc::{AllocError, Global};
use vcode::{Argument, Jump, Line, Operand};

/// The registers that a point reads, and the one that it writes.
#[derive(Drop)]
pub struct Uses {
    pub reads: Few<u32>,
    pub writes: Option<u32>,
}

fn push_operand(reads: &mut Few<u32>, operand: &Operand<u32>) -> Result<(), AllocError>
    ensures { OnOk result (reads.new ≡ with_operand reads.old operand.now) }
{
    match operand {
        Operand::At(register) => reads.push(*register),
        Operand::Number(_) => Ok(()),
        Operand::Name(_) => Ok(()),
    }
}

fn push_args(reads: &mut Few<u32>, args: &[Argument<u32>]) -> Result<(), AllocError>
    ensures { OnOk result (reads.new ≡ with_args reads.old args.now) }
{
    for arg in args {
        push_operand(reads, &arg.value)?;
    }
    Ok(())
}

fn push_both(
    reads: &mut Few<u32>,
    left: &Operand<u32>,
    right: &Operand<u32>,
) -> Result<(), AllocError>
    ensures { OnOk result (reads.new ≡ with_operand (with_operand reads.old left.now) right.now) }
{
    push_operand(reads, left)?;
    push_operand(reads, right)
}

fn push_call(
    reads: &mut Few<u32>,
    callee: &Operand<u32>,
    args: &[Argument<u32>],
) -> Result<(), AllocError>
    ensures { OnOk result (reads.new ≡ with_args (with_operand reads.old callee.now) args.now) }
{
    push_operand(reads, callee)?;
    push_args(reads, args)
}

fn push_line_reads(reads: &mut Few<u32>, line: &Line<u32>) -> Result<(), AllocError>
    requires { reads.old ≡ [] }
    ensures { OnOk result (reads.new ≡ line_reads line.now) }
{
    match line {
        Line::Tick { .. } => Ok(()),
        Line::Set { value, .. } => push_operand(reads, value),
        Line::Operate { left, right, .. } => push_both(reads, left, right),
        Line::Load { at, .. } => push_operand(reads, &at.base),
        Line::Store { value, at, .. } => push_both(reads, value, &at.base),
        Line::Alloc { .. } => Ok(()),
        Line::Blit { from, to, .. } => push_both(reads, from, to),
        Line::Call { callee, args, .. } => push_call(reads, callee, args.as_slice()),
    }
}

/// The registers that a line reads, those of its operands in order.
pub(crate) fn line_reads(alloc: Global, line: &Line<u32>) -> Result<Few<u32>, AllocError>
    ensures { IfOk result (λ v. v ≡ line_reads line.now) }
{
    let mut reads = Few::new(alloc);
    push_line_reads(&mut reads, line)?;
    Ok(reads)
}

/// The register that a line writes.
pub fn line_writes(line: &Line<u32>) -> Option<u32>
    ensures { result ≡ line_writes line.now }
{
    match line {
        Line::Tick { .. } => None,
        Line::Set { to, .. } => Some(*to),
        Line::Operate { to, .. } => Some(*to),
        Line::Load { to, .. } => Some(*to),
        Line::Store { .. } => None,
        Line::Alloc { to, .. } => *to,
        Line::Blit { .. } => None,
        Line::Call { to, .. } => match to {
            Some(destination) => Some(destination.place),
            None => None,
        },
    }
}

fn push_jump_reads(reads: &mut Few<u32>, jump: &Jump<u32>) -> Result<(), AllocError>
    requires { reads.old ≡ [] }
    ensures { OnOk result (reads.new ≡ jump_reads jump.now) }
{
    match jump {
        Jump::Goto(_) => Ok(()),
        Jump::Branch { on, .. } => push_both(reads, &on.left, &on.right),
        Jump::Return(None) => Ok(()),
        Jump::Return(Some(returned)) => push_operand(reads, &returned.value),
        Jump::Halt => Ok(()),
    }
}

/// The registers that a jump reads.
pub(crate) fn jump_reads(alloc: Global, jump: &Jump<u32>) -> Result<Few<u32>, AllocError>
    ensures { IfOk result (λ v. v ≡ jump_reads jump.now) }
{
    let mut reads = Few::new(alloc);
    push_jump_reads(&mut reads, jump)?;
    Ok(reads)
}
