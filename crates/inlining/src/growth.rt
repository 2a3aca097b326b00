//! A function's blocks while calls in it are done in place, and how far it may still grow.
ghost use Rattle.std.specs.Prelude.{◌≡◌, ℕ, ◌+◌, ◌<◌, ◌++◌, length, slice_set, IfOk, IfSome, sum_by};
ghost use Rattle.vcode.specs.declared.code.Block.{Block as BlockOf};
ghost use Rattle.vcode.specs.Prelude.{weight_of};
ghost use Rattle.inlining.specs.Growth.{Takes, line_count};

use crate::limits::BLOCKS;
use std::alloc::{AllocError, Global};
use vcode::limits::PLACES;
use vcode::{Block, Line, VFunc};

/// How many registers a function has, and how far it may still grow.
#[derive(Clone, Copy)]
pub(crate) struct Room {
    pub(crate) registers: u32,
    /// how much more its ticks may weigh
    pub(crate) weight_left: u64,
    /// how many more lines it may have
    pub(crate) lines_left: usize,
    /// how many more lines may be copied where blocks are cut
    pub(crate) copies_left: usize,
}

/// The blocks of a function in which calls are done in place.
#[derive(Drop)]
pub(crate) struct Growth {
    pub(crate) blocks: Vec<Block<u32>>,
    pub(crate) room: Room,
}

/// What a call in place makes of a block, and the room that is left then.
#[derive(Drop)]
pub(crate) struct Cut {
    pub(crate) up_to: Block<u32>,
    pub(crate) behind: Vec<Block<u32>>,
    pub(crate) room: Room,
}

fn weight_of(line: &Line<u32>) -> u64
    ensures { result ≡ weight_of line.now }
{
    match line {
        Line::Tick { weight, .. } => u64::from(*weight),
        _ => 0,
    }
}

fn weight_behind_lines(whole: u64, lines: &[Line<u32>]) -> Option<u64>
    ensures { IfSome result (λ left. sum_by weight_of lines.now + left ≡ whole) }
{
    let mut left = whole;
    for line in lines {
        let weight = weight_of(line);
        if left < weight {
            return None;
        }
        left -= weight;
    }
    Some(left)
}

/// What is left of so much weight behind the ticks of all blocks, if they weigh no more.
pub(crate) fn weight_behind(whole: u64, blocks: &[Block<u32>]) -> Option<u64>
    ensures { IfSome result (λ left. sum_by (λ (b : BlockOf ℕ). sum_by weight_of b.lines) blocks.now + left ≡ whole) }
{
    let mut left = whole;
    for block in blocks {
        match weight_behind_lines(left, block.lines.as_slice()) {
            Some(rest) => left = rest,
            None => return None,
        }
    }
    Some(left)
}

/// What is left of so many lines behind those of all blocks, if they are no more.
fn lines_behind(whole: usize, blocks: &[Block<u32>]) -> Option<usize>
    ensures { IfSome result (λ left. sum_by line_count blocks.now + left ≡ whole) }
{
    let mut left = whole;
    for block in blocks {
        match left.checked_sub(block.lines.len()) {
            Some(rest) => left = rest,
            None => return None,
        }
    }
    Some(left)
}

/// The room that is left of a function with so many blocks where one of so many lines is cut for the candidate's code, if it is enough for that.
pub(crate) fn room_behind(
    room: Room,
    blocks: usize,
    lines: usize,
    candidate: &VFunc,
) -> Option<Room>
    ensures { IfSome result (λ left. Takes room blocks lines candidate.now left) }
{
    let more = candidate.code.blocks.as_slice();
    let registers = room.registers.checked_add(candidate.registers)?;
    if registers >= PLACES || blocks >= BLOCKS || more.len() >= BLOCKS - blocks {
        return None;
    }
    let weight_left = weight_behind(room.weight_left, more)?;
    let lines_left = lines_behind(room.lines_left, more)?.checked_sub(candidate.code.params.len())?;
    let copies_left = room.copies_left.checked_sub(lines)?;
    Some(Room {
        registers,
        weight_left,
        lines_left,
        copies_left,
    })
}

/// The blocks with the one at a place cut, and the room that is left then.
pub(crate) fn put(growth: Growth, at: usize, cut: Cut) -> Result<Growth, AllocError>
    requires { at < length growth.blocks.items }
    ensures blocks { IfOk result (λ g. g.blocks.items ≡ slice_set growth.blocks.items at cut.up_to ++ cut.behind.items) }
    ensures room { IfOk result (λ g. g.room ≡ cut.room) }
{
    let mut blocks = growth.blocks;
    let mut behind = cut.behind;
    blocks[at] = cut.up_to;
    blocks.append(&mut behind)?;
    Ok(Growth {
        blocks,
        room: cut.room,
    })
}
