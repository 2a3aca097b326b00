//! Code whose lines change places.
ghost use Rattle.std.specs.Prelude.{◌≡◌, ◌+◌, ◌<◌, true, ◌++◌, length, OnOk, IfOk};
ghost use Rattle.scheduling.specs.Independent.{is_swap, swapped, reordered, swaps_at, scheduled_block, scheduled_blocks, scheduled};

use crate::independent::is_independent;
use il_ast::Seq;
use std::alloc::{AllocError, Global};
use vcode::line::push_lines;
use vcode::{Block, Code, Line, Location};

/// Whether there are two lines from there on that may change places.
fn is_swap(lines: &[Line<Location>], at: usize) -> bool
    ensures is { result ≡ is_swap at lines.now }
    ensures there { result ≡ true → at + 1 < length lines.now }
{
    if at >= lines.len() {
        return false;
    }
    match lines.get(at + 1) {
        Some(second) => is_independent(&lines[at], second),
        None => false,
    }
}

/// The line there and the next one change places, if there are two that may.
fn swap_at(lines: &mut [Line<Location>], at: usize)
    ensures { lines.new ≡ swapped at lines.old }
{
    if is_swap(lines, at) {
        lines.swap(at, at + 1);
    }
}

/// One swap after the other.
fn reorder(lines: &mut [Line<Location>], swaps: &[usize])
    ensures { lines.new ≡ reordered swaps.now lines.old }
{
    for at in swaps {
        swap_at(lines, *at);
    }
}

/// The lines with these swaps done.
fn reordered(
    alloc: Global,
    lines: &[Line<Location>],
    swaps: &[usize],
) -> Result<Seq<Line<Location>>, AllocError>
    ensures { IfOk result (λ ls. ls ≡ reordered swaps.now lines.now) }
{
    let mut made = Vec::with_capacity(alloc, lines.len())?;
    push_lines(alloc, &mut made, lines)?;
    reorder(made.as_mut_slice(), swaps);
    Ok(Seq::from_vec(made))
}

/// The swaps of a block: none where the plan names none.
fn swaps_at(plan: &[Seq<usize>], number: usize) -> &[usize]
    ensures { result.now ≡ swaps_at plan.now number }
{
    match plan.get(number) {
        Some(swaps) => swaps.as_slice(),
        None => &[],
    }
}

fn scheduled_block(
    alloc: Global,
    swaps: &[usize],
    block: &Block<Location>,
) -> Result<Block<Location>, AllocError>
    ensures { IfOk result (λ b. b ≡ scheduled_block swaps.now block.now) }
{
    let lines = reordered(alloc, block.lines.as_slice(), swaps)?;
    Ok(Block {
        lines,
        jump: block.jump,
    })
}

fn push_scheduled(
    alloc: Global,
    made: &mut Seq<Block<Location>>,
    plan: &[Seq<usize>],
    blocks: &[Block<Location>],
) -> Result<(), AllocError>
    ensures { OnOk result (made.new ≡ made.old ++ scheduled_blocks plan.now 0 blocks.now) }
{
    for (number, block) in blocks.iter().enumerate() {
        made.push(scheduled_block(alloc, swaps_at(plan, number), block)?)?;
    }
    Ok(())
}

/// The code with the swaps of a plan done.
pub(crate) fn scheduled(
    alloc: Global,
    code: &Code<Location>,
    plan: &[Seq<usize>],
) -> Result<Code<Location>, AllocError>
    ensures { IfOk result (λ c. c ≡ scheduled plan.now code.now) }
{
    let mut blocks = Seq::new(alloc);
    push_scheduled(alloc, &mut blocks, plan, code.blocks.as_slice())?;
    let params = code.params.try_clone(alloc)?;
    Ok(Code {
        result: code.result,
        params,
        blocks,
    })
}
