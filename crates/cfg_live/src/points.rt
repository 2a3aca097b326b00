//! The points of a function: its instructions and jumps.
ghost use Rattle.std.specs.Prelude.{◌≡◌, ◌++◌, [], ◌∷◌, drop, length, slice_get, OnOk, IfOk};
ghost use Rattle.cfg_live.specs.Rows.{with_line, with_lines, with_block, with_blocks, jump_uses, next_line, next_lines, next_block, next_blocks, with_start, jump_next, uses, starts, starts_after, graph_of};

use crate::graph::Graph;
use crate::uses::{Uses, jump_reads, line_reads, line_writes};
use il_ast::{Few, Seq};
use std::alloc::{AllocError, Global};
use vcode::{Block, Jump, Line, VFunc};

fn push_line(alloc: Global, uses: &mut Vec<Uses>, line: &Line<u32>) -> Result<(), AllocError>
    ensures { OnOk result (uses.new.items ≡ with_line uses.old.items line.now) }
{
    if let Line::Tick { .. } = line {
        return Ok(());
    }
    let reads = line_reads(alloc, line)?;
    uses.push(Uses {
        reads,
        writes: line_writes(line),
    })?;
    Ok(())
}

fn push_lines(alloc: Global, uses: &mut Vec<Uses>, lines: &[Line<u32>]) -> Result<(), AllocError>
    ensures { OnOk result (uses.new.items ≡ with_lines uses.old.items lines.now) }
{
    for line in lines {
        push_line(alloc, uses, line)?;
    }
    Ok(())
}

fn push_block(alloc: Global, uses: &mut Vec<Uses>, block: &Block<u32>) -> Result<(), AllocError>
    ensures { OnOk result (uses.new.items ≡ with_block uses.old.items block.now) }
{
    push_lines(alloc, uses, block.lines.as_slice())?;
    let reads = jump_reads(alloc, &block.jump)?;
    uses.push(Uses {
        reads,
        writes: None,
    })?;
    Ok(())
}

fn push_blocks(
    alloc: Global,
    uses: &mut Vec<Uses>,
    firsts: &mut Vec<usize>,
    blocks: &[Block<u32>],
) -> Result<(), AllocError>
    ensures uses { OnOk result (uses.new.items ≡ with_blocks uses.old.items blocks.now) }
    ensures firsts { OnOk result (firsts.new.items ≡ firsts.old.items ++ starts_after uses.old.items blocks.now) }
{
    for block in blocks {
        firsts.push(uses.len())?;
        push_block(alloc, uses, block)?;
    }
    Ok(())
}

/// How many points these blocks have at most, for which room is reserved.
fn most_points(blocks: &[Block<u32>]) -> usize {
    blocks.iter().fold(blocks.len(), |points: usize, block| {
        points.saturating_add(block.lines.len())
    })
}

/// What each point reads and writes, and the first point of each block.
fn uses_and_starts(
    alloc: Global,
    blocks: &[Block<u32>],
) -> Result<(Vec<Uses>, Vec<usize>), AllocError>
    ensures uses { IfOk result (λ v. v.0.items ≡ uses blocks.now) }
    ensures starts { IfOk result (λ v. v.1.items ≡ starts blocks.now) }
{
    let mut uses = Vec::with_capacity(alloc, most_points(blocks))?;
    let mut firsts = Vec::with_capacity(alloc, blocks.len())?;
    push_blocks(alloc, &mut uses, &mut firsts, blocks)?;
    Ok((uses, firsts))
}

fn push_start(next: &mut Few<usize>, first: Option<usize>) -> Result<(), AllocError>
    ensures { OnOk result (next.new ≡ with_start next.old first) }
{
    match first {
        Some(point) => next.push(point),
        None => Ok(()),
    }
}

fn push_jump_starts(
    next: &mut Few<usize>,
    firsts: &[usize],
    jump: &Jump<u32>,
) -> Result<(), AllocError>
    requires { next.old ≡ [] }
    ensures { OnOk result (next.new ≡ jump_next firsts.now jump.now) }
{
    match jump {
        Jump::Goto(block) => push_start(next, firsts.get(*block).copied()),
        Jump::Branch { met, otherwise, .. } => {
            push_start(next, firsts.get(*met).copied())?;
            push_start(next, firsts.get(*otherwise).copied())
        }
        Jump::Return(_) => Ok(()),
        Jump::Halt => Ok(()),
    }
}

fn next_of_jump(alloc: Global, firsts: &[usize], jump: &Jump<u32>) -> Result<Few<usize>, AllocError>
    ensures { IfOk result (λ v. v ≡ jump_next firsts.now jump.now) }
{
    let mut next = Few::new(alloc);
    push_jump_starts(&mut next, firsts, jump)?;
    Ok(next)
}

fn push_next(alloc: Global, nexts: &mut Vec<Few<usize>>, line: &Line<u32>) -> Result<(), AllocError>
    ensures { OnOk result (nexts.new.items ≡ next_line nexts.old.items line.now) }
{
    if let Line::Tick { .. } = line {
        return Ok(());
    }
    let mut next = Few::new(alloc);
    next.push(nexts.len() + 1)?;
    nexts.push(next)?;
    Ok(())
}

fn push_next_lines(
    alloc: Global,
    nexts: &mut Vec<Few<usize>>,
    lines: &[Line<u32>],
) -> Result<(), AllocError>
    ensures { OnOk result (nexts.new.items ≡ next_lines nexts.old.items lines.now) }
{
    for line in lines {
        push_next(alloc, nexts, line)?;
    }
    Ok(())
}

fn push_next_block(
    alloc: Global,
    firsts: &[usize],
    nexts: &mut Vec<Few<usize>>,
    block: &Block<u32>,
) -> Result<(), AllocError>
    ensures { OnOk result (nexts.new.items ≡ next_block firsts.now nexts.old.items block.now) }
{
    push_next_lines(alloc, nexts, block.lines.as_slice())?;
    let next = next_of_jump(alloc, firsts, &block.jump)?;
    nexts.push(next)?;
    Ok(())
}

fn push_next_blocks(
    alloc: Global,
    firsts: &[usize],
    nexts: &mut Vec<Few<usize>>,
    blocks: &[Block<u32>],
) -> Result<(), AllocError>
    ensures { OnOk result (nexts.new.items ≡ next_blocks firsts.now nexts.old.items blocks.now) }
{
    for block in blocks {
        push_next_block(alloc, firsts, nexts, block)?;
    }
    Ok(())
}

/// What each point of a function reads and writes.
///
/// # Errors
///
/// Only where memory was refused.
pub fn uses_of(alloc: Global, function: &VFunc) -> Result<Vec<Uses>, AllocError>
    ensures { IfOk result (λ v. v.items ≡ uses function.now.code.blocks) }
{
    let (uses, _firsts) = uses_and_starts(alloc, function.code.blocks.as_slice())?;
    Ok(uses)
}

/// The points of a function: what each reads and writes, and which may come next. A jump leads to the first point of each block that it names.
///
/// # Errors
///
/// Only where memory was refused.
pub fn graph(alloc: Global, function: &VFunc) -> Result<Graph, AllocError>
    ensures { IfOk result (λ g. g ≡ graph_of function.now.code) }
{
    let blocks = function.code.blocks.as_slice();
    let (uses, firsts) = uses_and_starts(alloc, blocks)?;
    let mut nexts = Vec::with_capacity(alloc, uses.len())?;
    push_next_blocks(alloc, &firsts, &mut nexts, blocks)?;
    Ok(Graph {
        uses: Seq::from_vec(uses),
        nexts: Seq::from_vec(nexts),
    })
}
