//! The blocks of a call in place.
ghost use Rattle.std.specs.Prelude.{◌≡◌, ℕ, ◌++◌, ◌∷◌, ◌+◌, ◌<◌, map, take, drop, length, IsTrue, IfOk, OnOk};
ghost use Rattle.std.specs.List.{list_all};
ghost use Rattle.vcode.specs.declared.limits.TheConstants.{PLACES};
ghost use Rattle.vcode.specs.declared.code.Block.{Block as BlockOf};
ghost use Rattle.vcode.specs.declared.place.Destination.{Destination as DestinationOf};
ghost use Rattle.vcode.specs.Prelude.{line_keeps, jump_keeps, block_keeps, is_below, leads_inside};
ghost use Rattle.inlining.specs.declared.limits.TheConstants.{BLOCKS};
ghost use Rattle.inlining.specs.InPlace.{moved_line, arguments_brought, candidate_block, up_to_call, behind_call, site_of};

use crate::brought::{push_arguments, push_result};
use crate::moved::{moved_jump, moved_line};
use il_ast::{Class, Seq, Symbol};
use std::alloc::{AllocError, Global};
use vcode::line::push_lines;
use vcode::{Argument, Block, Destination, Jump, Line};

/// A call of a global name, in a block.
#[derive(Clone, Copy)]
pub(crate) struct CallSite<'a> {
    pub(crate) block: &'a Block<u32>,
    pub(crate) to: Option<Destination<u32>>,
    pub(crate) name: Symbol,
    pub(crate) args: &'a [Argument<u32>],
}

fn push_moved(
    alloc: Global,
    base: u32,
    lines: &mut Vec<Line<u32>>,
    from: &[Line<u32>],
) -> Result<(), AllocError>
    requires base { base < PLACES }
    requires known { IsTrue (list_all (line_keeps (is_below PLACES)) from.now) }
    ensures { OnOk result (lines.new.items ≡ lines.old.items ++ map (moved_line base) from.now) }
{
    for line in from {
        lines.push(moved_line(alloc, base, line)?)?;
    }
    Ok(())
}

/// A block of the candidate, with registers so many further: the candidate's blocks stand behind the one that goes on behind the call, and what is wanted of a result of
/// this class takes it.
fn candidate_block(
    alloc: Global,
    behind: usize,
    base: u32,
    class: Option<Class>,
    to: Option<Destination<u32>>,
    block: &Block<u32>,
) -> Result<Block<u32>, AllocError>
    requires few { behind < BLOCKS }
    requires base { base < PLACES }
    requires inside { IsTrue (leads_inside BLOCKS block.now.jump) }
    requires known { IsTrue (block_keeps (is_below PLACES) block.now) }
    ensures { IfOk result (λ b. b ≡ candidate_block (behind + 1) behind base class to block.now) }
{
    let mut lines = Vec::with_capacity(alloc, block.lines.len())?;
    push_moved(alloc, base, &mut lines, block.lines.as_slice())?;
    push_result(base, &mut lines, class, to, &block.jump)?;
    Ok(Block {
        lines: Seq::from_vec(lines),
        jump: moved_jump(behind, base, &block.jump),
    })
}

/// The blocks of the candidate, each in this way.
pub(crate) fn push_candidate(
    alloc: Global,
    base: u32,
    class: Option<Class>,
    to: Option<Destination<u32>>,
    behind: usize,
    made: &mut Vec<Block<u32>>,
    blocks: &[Block<u32>],
) -> Result<(), AllocError>
    requires few { behind < BLOCKS }
    requires base { base < PLACES }
    requires inside { IsTrue (list_all (λ (b : BlockOf ℕ). leads_inside BLOCKS b.jump) blocks.now) }
    requires known { IsTrue (list_all (block_keeps (is_below PLACES)) blocks.now) }
    ensures { OnOk result (made.new.items ≡ made.old.items ++ map (candidate_block (behind + 1) behind base class to) blocks.now) }
{
    for block in blocks {
        made.push(candidate_block(alloc, behind, base, class, to, block)?)?;
    }
    Ok(())
}

/// A block like another.
pub(crate) fn copied(alloc: Global, block: &Block<u32>) -> Result<Block<u32>, AllocError>
    ensures { IfOk result (λ b. b ≡ block.now) }
{
    let mut lines = Vec::with_capacity(alloc, block.lines.len())?;
    push_lines(alloc, &mut lines, block.lines.as_slice())?;
    Ok(Block {
        lines: Seq::from_vec(lines),
        jump: block.jump,
    })
}

/// The block up to the call, which this line is: the parameters take the arguments, and the candidate's first block goes on.
pub(crate) fn up_to_call(
    alloc: Global,
    behind: usize,
    base: u32,
    line: usize,
    params: &[Destination<u32>],
    site: &CallSite<'_>,
) -> Result<Block<u32>, AllocError>
    requires line { line < length site.now.block.now.lines }
    requires few { behind < BLOCKS }
    requires base { base < PLACES }
    requires known { IsTrue (list_all (λ (d : DestinationOf ℕ). is_below PLACES d.place) params.now) }
    ensures { IfOk result (λ b. b ≡ up_to_call (behind + 1) base line params.now (site_of site.now)) }
{
    let mut lines = Vec::with_capacity(alloc, line)?;
    push_lines(alloc, &mut lines, &site.block.lines.as_slice()[..line])?;
    push_arguments(base, &mut lines, params, site.args)?;
    Ok(Block {
        lines: Seq::from_vec(lines),
        jump: Jump::Goto(behind + 1),
    })
}

/// The block behind the call, which this line is.
pub(crate) fn behind_call(
    alloc: Global,
    line: usize,
    site: &CallSite<'_>,
) -> Result<Block<u32>, AllocError>
    requires line { line < length site.now.block.now.lines }
    ensures { IfOk result (λ b. b ≡ behind_call line (site_of site.now)) }
{
    let rest = &site.block.lines.as_slice()[line + 1..];
    let mut lines = Vec::with_capacity(alloc, rest.len())?;
    push_lines(alloc, &mut lines, rest)?;
    Ok(Block {
        lines: Seq::from_vec(lines),
        jump: site.block.jump,
    })
}
