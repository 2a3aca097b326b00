//! Functions with copies of blocks in the place of jumps to them.
ghost use Rattle.std.specs.Prelude.{◌≡◌, ◌≤◌, true, IfOk, IfSome, sum_by};
ghost use Rattle.il_ast.specs.declared.limits.TheConstants.{FUNCTION_WEIGHT};
ghost use Rattle.il_ast.specs.Prelude.{Keeps};
ghost use Rattle.vcode.specs.Prelude.{virtual_code};
ghost use Rattle.block_layout.specs.Joined.{joined, longer, AllLonger, block_burden};

use crate::placement::order::in_order;
use crate::tails::choice::{Worth, chosen_tails, reached_blocks};
use crate::tails::weigh::are_light;
use flow::graph::reachable;
use il_ast::Seq;
use std::alloc::{AllocError, Global};
use vcode::line::push_lines;
use vcode::{Block, Jump, Line, VFunc};

fn as_it_is(alloc: Global, block: &Block<u32>) -> Result<Block<u32>, AllocError>
    ensures { IfOk result (λ d. d ≡ block.now) }
{
    let mut lines = Vec::with_capacity(alloc, block.lines.len())?;
    push_lines(alloc, &mut lines, block.lines.as_slice())?;
    Ok(Block {
        lines: Seq::from_vec(lines),
        jump: block.jump,
    })
}

/// The lines of both, and the jump of the second.
fn joined(alloc: Global, block: &Block<u32>, tail: &Block<u32>) -> Result<Block<u32>, AllocError>
    ensures { IfOk result (λ d. d ≡ joined block.now tail.now) }
{
    let both = block.lines.len().saturating_add(tail.lines.len());
    let mut lines = Vec::with_capacity(alloc, both)?;
    push_lines(alloc, &mut lines, block.lines.as_slice())?;
    push_lines(alloc, &mut lines, tail.lines.as_slice())?;
    Ok(Block {
        lines: Seq::from_vec(lines),
        jump: tail.jump,
    })
}

fn with_tail(
    alloc: Global,
    blocks: &[Block<u32>],
    block: &Block<u32>,
) -> Result<Block<u32>, AllocError>
    ensures { IfOk result (λ d. d ≡ longer blocks.now true block.now) }
{
    match &block.jump {
        Jump::Goto(to) => match blocks.get(*to) {
            Some(tail) => joined(alloc, block, tail),
            None => as_it_is(alloc, block),
        },
        Jump::Branch { .. } | Jump::Return(_) | Jump::Halt => as_it_is(alloc, block),
    }
}

/// The block as it is, or with a copy of the one that it goes to.
fn longer(
    alloc: Global,
    blocks: &[Block<u32>],
    is_chosen: bool,
    block: &Block<u32>,
) -> Result<Block<u32>, AllocError>
    ensures { IfOk result (λ d. d ≡ longer blocks.now is_chosen block.now) }
{
    if is_chosen {
        with_tail(alloc, blocks, block)
    } else {
        as_it_is(alloc, block)
    }
}

/// Whether the block is chosen.
fn is_listed(chosen: &[bool], block: usize) -> bool {
    chosen.get(block).copied().unwrap_or(false)
}

/// The blocks, those that are chosen with copies of the ones that they go to.
fn all_longer(
    alloc: Global,
    chosen: &[bool],
    blocks: &[Block<u32>],
) -> Result<Vec<Block<u32>>, AllocError>
    ensures { IfOk result (λ v. AllLonger blocks.now blocks.now v.items) }
{
    let mut made = Vec::with_capacity(alloc, blocks.len())?;
    for (number, block) in blocks.iter().enumerate() {
        made.push(longer(alloc, blocks, is_listed(chosen, number), block)?)?;
    }
    Ok(made)
}

fn with_these(alloc: Global, function: &VFunc, blocks: Vec<Block<u32>>) -> Result<VFunc, AllocError>
    requires longer { AllLonger function.now.code.blocks function.now.code.blocks blocks.items }
    requires light { sum_by block_burden blocks.items ≤ FUNCTION_WEIGHT }
    ensures { IfOk result (λ w. Keeps (virtual_code function.now) (virtual_code w)) }
{
    let made = function.with_blocks(alloc, function.registers, Seq::from_vec(blocks))?;
    Ok(made)
}

fn of_reached(alloc: Global, function: &VFunc) -> Result<Option<VFunc>, AllocError>
    ensures { IfOk result (λ o. IfSome o (λ w. Keeps (virtual_code function.now) (virtual_code w))) }
{
    let order = reached_blocks(alloc, function.code.blocks.as_slice())?;
    in_order(alloc, function, order.as_slice())
}

/// The function without the blocks to which no way leads.
fn without_unreached(alloc: Global, function: VFunc) -> Result<VFunc, AllocError>
    ensures { IfOk result (λ w. Keeps (virtual_code function) (virtual_code w)) }
{
    match of_reached(alloc, &function)? {
        Some(made) => Ok(made),
        None => Ok(function),
    }
}

/// The function in which each block that is chosen and goes to another has a copy of that in the place of its jump; none where its ticks together would be more than a
/// function's may. It takes time and memory as the text and its copies are long.
///
/// # Errors
///
/// Only where memory was refused.
pub fn apply(alloc: Global, function: &VFunc, chosen: &[bool]) -> Result<Option<VFunc>, AllocError>
    ensures { IfOk result (λ o. IfSome o (λ w. Keeps (virtual_code function.now) (virtual_code w))) }
{
    let blocks = all_longer(alloc, chosen, function.code.blocks.as_slice())?;
    if are_light(blocks.as_slice()) {
        Ok(Some(with_these(alloc, function, blocks)?))
    } else {
        Ok(None)
    }
}

fn with_chosen(
    alloc: Global,
    function: &VFunc,
    marks: &[bool],
    worth: Worth,
) -> Result<Option<VFunc>, AllocError>
    ensures { IfOk result (λ o. IfSome o (λ w. Keeps (virtual_code function.now) (virtual_code w))) }
{
    match chosen_tails(alloc, function.code.blocks.as_slice(), marks, worth)? {
        Some(chosen) => apply(alloc, function, chosen.as_slice()),
        None => Ok(None),
    }
}

/// Copies come to stand where other copies were chosen: so it is done again, of the blocks to which a way leads then.
fn copied_again(alloc: Global, function: VFunc, worth: Worth) -> Result<VFunc, AllocError>
    ensures { IfOk result (λ w. Keeps (virtual_code function) (virtual_code w)) }
{
    let marks = reachable(alloc, function.code.blocks.as_slice())?;
    match with_chosen(alloc, &function, marks.as_slice(), worth)? {
        Some(made) => Ok(made),
        None => Ok(function),
    }
}

/// The function with copies, if some are chosen.
#[tactic(auto, using(il_ast::proofs::Passing::keeps_compose))]
fn copied_twice(alloc: Global, function: &VFunc, worth: Worth) -> Result<Option<VFunc>, AllocError>
    ensures { IfOk result (λ o. IfSome o (λ w. Keeps (virtual_code function.now) (virtual_code w))) }
{
    match with_chosen(alloc, function, &[], worth)? {
        Some(once) => {
            let twice = copied_again(alloc, once, worth)?;
            Ok(Some(twice))
        }
        None => Ok(None),
    }
}

/// The function in which blocks that go to one to which nothing else leads are one with it, and so are those that go to one that does nothing but branch or return,
/// where that begins no loop: what is known where a jump comes from can say where it leads. It is without the blocks to which no way leads. It takes time and memory
/// as the text is long.
///
/// # Errors
///
/// Only where memory was refused.
#[tactic(auto, using(il_ast::proofs::Passing::keeps_compose))]
pub fn thread_jumps(alloc: Global, function: &VFunc) -> Result<Option<VFunc>, AllocError>
    ensures { IfOk result (λ o. IfSome o (λ w. Keeps (virtual_code function.now) (virtual_code w))) }
{
    match copied_twice(alloc, function, Worth::Bare)? {
        Some(made) => {
            let reached = without_unreached(alloc, made)?;
            Ok(Some(reached))
        }
        None => Ok(None),
    }
}

/// The function with copies of short blocks that branch in the place of jumps to them too. Blocks to which no way leads then stay, for the placement of blocks to leave out.
/// It takes time and memory as the text is long.
///
/// # Errors
///
/// Only where memory was refused.
pub fn duplicate_tails(alloc: Global, function: &VFunc) -> Result<Option<VFunc>, AllocError>
    ensures { IfOk result (λ o. IfSome o (λ w. Keeps (virtual_code function.now) (virtual_code w))) }
{
    copied_twice(alloc, function, Worth::Short)
}
