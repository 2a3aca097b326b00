//! Blocks with more lines.
ghost use Rattle.std.specs.Prelude.{◌≡◌, ◌++◌, ◌&&◌, ℕ, List, true, nat_le, nat_lt, IfOk, IfSome, OnOk};
ghost use Rattle.std.specs.List.{list_all};
ghost use Rattle.vcode.specs.declared.line.Line.{Line as ALine};
ghost use Rattle.vcode.specs.Prelude.{operand_keeps, is_below};
ghost use Rattle.code_motion.specs.Longer.{is_extra, AreLonger, with_front, IsLonger, AllLonger};

use crate::plan::{BlockPlan, Computation};
use il_ast::Seq;
use std::alloc::{AllocError, Global};
use vcode::cost::is_paid;
use vcode::line::push_lines;
use vcode::{Block, Line, Operand};

/// How many registers there are before and after.
#[derive(Clone, Copy)]
pub(crate) struct Registers {
    pub(crate) before: u32,
    pub(crate) after: u32,
}

fn is_low(registers: u32, operand: &Operand<u32>) -> bool
    ensures { result ≡ operand_keeps (is_below registers) operand.now }
{
    match operand {
        Operand::At(register) => *register < registers,
        _ => true,
    }
}

/// Whether a line is an operation into a register that the function doesn't have, and names only registers that there are afterwards.
fn is_extra(registers: Registers, line: &Line<u32>) -> bool
    ensures { result ≡ is_extra registers.before registers.after line.now }
{
    match line {
        Line::Operate {
            to,
            left,
            right,
            ..
        } => {
            registers.before <= *to
                && (*to < registers.after
                    && (is_low(registers.after, left) && is_low(registers.after, right)))
        }
        _ => false,
    }
}

/// The lines of these plans, as far as they fit.
fn extra(
    alloc: Global,
    registers: Registers,
    plans: &[Computation],
) -> Result<Vec<Line<u32>>, AllocError>
    ensures { IfOk result (λ v. list_all (is_extra registers.before registers.after) v.items ≡ true) }
{
    let mut lines = Vec::new(alloc);
    for plan in plans {
        let line = plan.line();
        if is_extra(registers, &line) {
            lines.push(line)?;
        }
    }
    Ok(lines)
}

/// The line that is planned in front of the line with this number, if it fits.
fn front(registers: Registers, plans: &[Option<Computation>], number: usize) -> Option<Line<u32>>
    ensures { IfSome result (λ m. is_extra registers.before registers.after m ≡ true) }
{
    match plans.get(number) {
        Some(Some(plan)) => {
            let line = plan.line();
            if is_extra(registers, &line) {
                Some(line)
            } else {
                None
            }
        }
        _ => None,
    }
}

fn push_with_front(
    alloc: Global,
    to: &mut Vec<Line<u32>>,
    front: Option<Line<u32>>,
    line: &Line<u32>,
) -> Result<(), AllocError>
    ensures { OnOk result (to.new.items ≡ to.old.items ++ with_front front line.now) }
{
    if let Some(front) = front {
        to.push(front)?;
    }
    to.push(line.try_clone(alloc)?)?;
    Ok(())
}

/// The lines, with those that are planned in front of them.
fn with_fronts(
    alloc: Global,
    registers: Registers,
    plans: &[Option<Computation>],
    from: &[Line<u32>],
) -> Result<Vec<Line<u32>>, AllocError>
    ensures { IfOk result (λ v. AreLonger registers.before registers.after from.now v.items) }
{
    let mut lines = Vec::with_capacity(alloc, from.len())?;
    for (number, line) in from.iter().enumerate() {
        push_with_front(alloc, &mut lines, front(registers, plans, number), line)?;
    }
    Ok(lines)
}

/// The lines, with those that are planned in front of them and behind them all.
fn longer_lines(
    alloc: Global,
    registers: Registers,
    plans: &BlockPlan,
    from: &[Line<u32>],
) -> Result<Vec<Line<u32>>, AllocError>
    ensures { IfOk result (λ v. AreLonger registers.before registers.after from.now v.items) }
{
    let extra = extra(alloc, registers, plans.behind.as_slice())?;
    let mut lines = with_fronts(alloc, registers, plans.in_front.as_slice(), from)?;
    push_lines(alloc, &mut lines, extra.as_slice())?;
    Ok(lines)
}

/// The block with the lines that are planned for it, if its ticks pay for them.
fn longer(
    alloc: Global,
    registers: Registers,
    plans: &BlockPlan,
    from: &Block<u32>,
) -> Result<Block<u32>, AllocError>
    ensures { IfOk result (λ d. IsLonger registers.before registers.after from.now d) }
{
    let lines = longer_lines(alloc, registers, plans, from.lines.as_slice())?;
    let block = Block {
        lines: Seq::from_vec(lines),
        jump: from.jump,
    };
    if is_paid(&block) {
        Ok(block)
    } else {
        copy(alloc, from)
    }
}

/// The same block.
fn copy(alloc: Global, from: &Block<u32>) -> Result<Block<u32>, AllocError>
    ensures { IfOk result (λ d. d ≡ from.now) }
{
    let mut lines = Vec::with_capacity(alloc, from.lines.len())?;
    push_lines(alloc, &mut lines, from.lines.as_slice())?;
    Ok(Block {
        lines: Seq::from_vec(lines),
        jump: from.jump,
    })
}

fn planned(
    alloc: Global,
    registers: Registers,
    plans: &[BlockPlan],
    number: usize,
    from: &Block<u32>,
) -> Result<Block<u32>, AllocError>
    ensures { IfOk result (λ d. IsLonger registers.before registers.after from.now d) }
{
    match plans.get(number) {
        Some(plans) => longer(alloc, registers, plans, from),
        None => copy(alloc, from),
    }
}

/// The blocks with the lines that are planned for them.
///
/// # Errors
///
/// Only where memory was refused.
pub(crate) fn all_longer(
    alloc: Global,
    registers: Registers,
    plans: &[BlockPlan],
    from: &[Block<u32>],
) -> Result<Vec<Block<u32>>, AllocError>
    ensures { IfOk result (λ v. AllLonger registers.before registers.after from.now v.items) }
{
    let mut made = Vec::with_capacity(alloc, from.len())?;
    for (number, block) in from.iter().enumerate() {
        made.push(planned(alloc, registers, plans, number, block)?)?;
    }
    Ok(made)
}
