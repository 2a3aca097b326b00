//! Code in parts, by a plan.
ghost use Rattle.std.specs.Prelude.{◌≡◌, ◌∷◌, ◌++◌, map, slice_get, IsTrue, OnOk, IfOk, IfSome};
ghost use Rattle.std.specs.List.{list_all};
ghost use Rattle.frame_ways.specs.Plans.{is_bare, is_framed, is_outside, leads, number_of, part_for, renamed, with_targets, begin_for, copy_of, copied, part_block, planned, marks_of, passes, is_of, stands_for, is_copy_right, is_part_right, is_plan};
ghost use Rattle.frame_ways.specs.Keeping.{IsMarkedOf};

use crate::bare::{are_bare_params, is_bare_block};
use crate::choice::choose;
use crate::mark::{Mark, Marked};
use crate::plan::{Part, Plan};
use flat_code::function::FlatFunc;
use il_ast::Seq;
use std::alloc::{AllocError, Global};
use vcode::line::push_lines;
use vcode::{Block, Code, Jump, Location};

fn part_for(numbers: &[usize], block: usize) -> usize
    ensures { result ≡ part_for numbers.now block }
{
    match numbers.get(block) {
        Some(number) => *number,
        None => 0,
    }
}

/// Is the block outside of the frame?
fn is_outside(mark: Mark) -> bool
    ensures { result ≡ is_outside mark }
{
    match mark {
        Mark::Bare | Mark::Begin => true,
        Mark::Framed => false,
    }
}

/// Does a part of the block that is outside of the frame stand for it?
fn has_front(plan: &Plan, block: usize) -> bool
    ensures { result ≡ stands_for is_outside plan.now plan.now.front block }
{
    let number = part_for(plan.front.as_slice(), block);
    match plan.parts.as_slice().get(number) {
        Some(part) => 0 < number && part.block == block && is_outside(part.mark),
        None => false,
    }
}

/// Does a framed part of the block stand for it?
fn has_behind(plan: &Plan, block: usize) -> bool
    ensures { result ≡ stands_for is_framed plan.now plan.now.behind block }
{
    let number = part_for(plan.behind.as_slice(), block);
    match plan.parts.as_slice().get(number) {
        Some(part) => 0 < number && part.block == block && part.mark == Mark::Framed,
        None => false,
    }
}

fn leads_outside(plan: &Plan, jump: &Jump<Location>) -> bool
    ensures { result ≡ leads (stands_for is_outside plan.now plan.now.front) jump.now }
{
    match jump {
        Jump::Goto(target) => has_front(plan, *target),
        Jump::Branch { met, otherwise, .. } => has_front(plan, *met) && has_front(plan, *otherwise),
        Jump::Return(_) | Jump::Halt => true,
    }
}

fn leads_inside(plan: &Plan, jump: &Jump<Location>) -> bool
    ensures { result ≡ leads (stands_for is_framed plan.now plan.now.behind) jump.now }
{
    match jump {
        Jump::Goto(target) => has_behind(plan, *target),
        Jump::Branch { met, otherwise, .. } => {
            has_behind(plan, *met) && has_behind(plan, *otherwise)
        }
        Jump::Return(_) | Jump::Halt => true,
    }
}

fn is_copy_right(plan: &Plan, part: &Part, block: &Block<Location>) -> bool
    ensures { result ≡ is_copy_right plan.now part.now.block part.now.mark block.now }
{
    match part.mark {
        Mark::Bare => is_bare_block(block) && leads_outside(plan, &block.jump),
        Mark::Begin => has_behind(plan, part.block),
        Mark::Framed => 0 < part.block && leads_inside(plan, &block.jump),
    }
}

fn is_part_right(code: &Code<Location>, plan: &Plan, part: &Part) -> bool
    ensures { result ≡ is_part_right code.now plan.now part.now }
{
    match code.blocks.as_slice().get(part.block) {
        Some(block) => is_copy_right(plan, part, block),
        None => false,
    }
}

fn are_parts_right(code: &Code<Location>, plan: &Plan, parts: &[Part]) -> bool
    ensures { result ≡ list_all (is_part_right code.now plan.now) parts.now }
{
    for part in parts {
        if !is_part_right(code, plan, part) {
            return false;
        }
    }
    true
}

/// Is the first part a bare one of the first block?
fn begins_bare(parts: &[Part]) -> bool
    ensures { result ≡ passes (is_of is_bare 0) (slice_get parts.now 0) }
{
    match parts.get(0) {
        Some(part) => part.block == 0 && part.mark == Mark::Bare,
        None => false,
    }
}

/// Does the plan give code that runs as this does?
fn is_plan(code: &Code<Location>, plan: &Plan) -> bool
    ensures { result ≡ is_plan code.now plan.now }
{
    are_bare_params(code.params.as_slice())
        && begins_bare(plan.parts.as_slice())
        && are_parts_right(code, plan, plan.parts.as_slice())
}

fn renamed(numbers: &[usize], jump: &Jump<Location>) -> Jump<Location>
    ensures { result ≡ renamed numbers.now jump.now }
{
    match jump {
        Jump::Goto(target) => Jump::Goto(part_for(numbers, *target)),
        Jump::Branch { on, met, otherwise } => Jump::Branch {
            on: *on,
            met: part_for(numbers, *met),
            otherwise: part_for(numbers, *otherwise),
        },
        Jump::Return(value) => Jump::Return(*value),
        Jump::Halt => Jump::Halt,
    }
}

fn with_targets(
    alloc: Global,
    numbers: &[usize],
    block: &Block<Location>,
) -> Result<Block<Location>, AllocError>
    ensures { IfOk result (λ b. b ≡ with_targets numbers.now block.now) }
{
    let mut lines = Vec::with_capacity(alloc, block.lines.len())?;
    push_lines(alloc, &mut lines, block.lines.as_slice())?;
    Ok(Block {
        lines: Seq::from_vec(lines),
        jump: renamed(numbers, &block.jump),
    })
}

/// What stands where the frame begins for a block.
fn begin_for(alloc: Global, plan: &Plan, block: usize) -> Block<Location>
    ensures { result ≡ begin_for plan.now block }
{
    Block {
        lines: Seq::new(alloc),
        jump: Jump::Goto(part_for(plan.behind.as_slice(), block)),
    }
}

fn copy_of(
    alloc: Global,
    plan: &Plan,
    part: &Part,
    block: &Block<Location>,
) -> Result<Block<Location>, AllocError>
    ensures { IfOk result (λ b. b ≡ copy_of plan.now part.now.block part.now.mark block.now) }
{
    match part.mark {
        Mark::Bare => with_targets(alloc, plan.front.as_slice(), block),
        Mark::Begin => Ok(begin_for(alloc, plan, part.block)),
        Mark::Framed => with_targets(alloc, plan.behind.as_slice(), block),
    }
}

fn part_block(
    alloc: Global,
    code: &Code<Location>,
    plan: &Plan,
    part: &Part,
) -> Result<Block<Location>, AllocError>
    ensures { IfOk result (λ b. b ≡ part_block code.now plan.now part.now) }
{
    match code.blocks.as_slice().get(part.block) {
        Some(block) => copy_of(alloc, plan, part, block),
        None => Ok(Block {
            lines: Seq::new(alloc),
            jump: Jump::Halt,
        }),
    }
}

fn push_blocks(
    alloc: Global,
    blocks: &mut Vec<Block<Location>>,
    code: &Code<Location>,
    plan: &Plan,
    parts: &[Part],
) -> Result<(), AllocError>
    ensures { OnOk result (blocks.new.items ≡ blocks.old.items ++ map (part_block code.now plan.now) parts.now) }
{
    for part in parts {
        blocks.push(part_block(alloc, code, plan, part)?)?;
    }
    Ok(())
}

fn planned(alloc: Global, code: &Code<Location>, plan: &Plan) -> Result<Code<Location>, AllocError>
    ensures { IfOk result (λ g. g ≡ planned code.now plan.now) }
{
    let mut blocks = Vec::with_capacity(alloc, plan.parts.len())?;
    push_blocks(alloc, &mut blocks, code, plan, plan.parts.as_slice())?;
    Ok(Code {
        result: code.result,
        params: code.params.try_clone(alloc)?,
        blocks: Seq::from_vec(blocks),
    })
}

fn push_marks(marks: &mut Vec<Mark>, parts: &[Part]) -> Result<(), AllocError>
    ensures { OnOk result (marks.new.items ≡ marks.old.items ++ map (λ p. p.mark) parts.now) }
{
    for part in parts {
        marks.push(part.mark)?;
    }
    Ok(())
}

fn marked(alloc: Global, code: &Code<Location>, plan: &Plan) -> Result<Marked, AllocError>
    ensures code { IfOk result (λ m. m.code ≡ planned code.now plan.now) }
    ensures marks { IfOk result (λ m. m.marks.items ≡ marks_of plan.now) }
{
    let mut marks = Vec::with_capacity(alloc, plan.parts.len())?;
    push_marks(&mut marks, plan.parts.as_slice())?;
    Ok(Marked {
        code: planned(alloc, code, plan)?,
        marks,
    })
}

/// The code by this plan, if it is right.
fn by_plan(alloc: Global, function: &FlatFunc, plan: &Plan) -> Result<Option<Marked>, AllocError>
    ensures { IfOk result (λ o. IfSome o (λ m. IsMarkedOf function.now.located.code function.now.located.slots m.code m.marks.items)) }
{
    let code = &function.located.code;
    if is_plan(code, plan) {
        Ok(Some(marked(alloc, code, plan)?))
    } else {
        Ok(None)
    }
}

/// The function's code with marks, where some of its ways return and need no frame. It runs as the function's does.
///
/// # Errors
///
/// Only where memory was refused.
pub fn ways(alloc: Global, function: &FlatFunc) -> Result<Option<Marked>, AllocError>
    ensures { IfOk result (λ o. IfSome o (λ m. IsMarkedOf function.now.located.code function.now.located.slots m.code m.marks.items)) }
{
    match choose(alloc, function.located.code.blocks.as_slice())? {
        Some(plan) => by_plan(alloc, function, &plan),
        None => Ok(None),
    }
}
