//! Dead lines go.
ghost use Rattle.std.specs.Prelude.{◌≡◌, ◌<◌, ℕ, true, false, map, length, slice_get, reverse as reversed, drop, Some, OnOk, IfOk, IfSome};
ghost use Rattle.std.specs.List.{list_all};
ghost use Rattle.bitset.specs.Bits.{Bits, is_member};
ghost use Rattle.il_ast.specs.Prelude.{Keeps};
ghost use Rattle.vcode.specs.Prelude.{virtual_code, line_keeps, block_keeps, is_below};
ghost use Rattle.dead_code.specs.Without.{kept_lines, kept_block, wanted_at, wanted_behind, wanted_in, held, Closed};

use crate::guess::guessed;
use crate::wanted::{as_wanted, begin, is_dead, pass};
use bitset::BitSet;
use il_ast::Seq;
use std::alloc::{AllocError, Global};
use vcode::{Block, Line, VFunc};

/// The lines that stay, last first, of a block behind whose lines this is wanted, which becomes what is wanted before them.
fn kept_backward(
    alloc: Global,
    set: &mut BitSet,
    lines: &[Line<u32>],
) -> Result<Vec<Line<u32>>, AllocError>
    requires { list_all (line_keeps (is_below set.old.length)) lines.now ≡ true }
    ensures length { set.new.length ≡ set.old.length }
    ensures lines { IfOk result (λ v. v.items ≡ reversed (kept_lines (is_member set.old) lines.now)) }
    ensures wanted { OnOk result (is_member set.new ≡ wanted_at (is_member set.old) lines.now) }
{
    let mut kept = Vec::with_capacity(alloc, lines.len())?;
    for k in (0..lines.len()).rev() {
        let line = &lines[k];
        if !is_dead(set, line) {
            kept.push(as_wanted(alloc, set, line)?)?;
            pass(set, line);
        }
    }
    Ok(kept)
}

/// The block without its dead lines, by what is wanted at the beginnings of blocks. The set becomes what is wanted at its own.
fn kept_block(
    alloc: Global,
    set: &mut BitSet,
    starts: &[BitSet],
    block: &Block<u32>,
) -> Result<Block<u32>, AllocError>
    requires { block_keeps (is_below set.old.length) block.now ≡ true }
    ensures length { set.new.length ≡ set.old.length }
    ensures block { IfOk result (λ d. d ≡ kept_block set.old.length starts.now block.now) }
    ensures wanted { OnOk result (is_member set.new ≡ wanted_in set.old.length starts.now block.now) }
{
    begin(set, starts, &block.jump);
    let mut lines = kept_backward(alloc, set, block.lines.as_slice())?;
    lines.reverse();
    Ok(Block {
        lines: Seq::from_vec(lines),
        jump: block.jump,
    })
}

/// Whether all of the first set, which is used up, is wanted at the beginning of the block. The last is an empty set to test by.
fn is_within(set: &mut BitSet, starts: &[BitSet], block: usize, empty: &mut BitSet) -> bool
    requires empty { (r : ℕ) → is_member empty.old r ≡ false }
    ensures length { set.new.length ≡ set.old.length }
    ensures empty { result ≡ true → (r : ℕ) → is_member empty.new r ≡ false }
    ensures within { result ≡ true → (r : ℕ) → is_member set.old r ≡ true → held set.old.length starts.now block r ≡ true }
{
    match starts.get(block) {
        Some(row) => {
            if row.len() != set.len() || empty.len() != set.len() {
                return false;
            }
            set.minus(row);
            !empty.union_into(set)
        }
        None => false,
    }
}

/// The blocks without their dead lines, if none wants more at its beginning than was guessed.
fn kept_blocks(
    alloc: Global,
    set: &mut BitSet,
    starts: &[BitSet],
    blocks: &[Block<u32>],
) -> Result<Option<Vec<Block<u32>>>, AllocError>
    requires { list_all (block_keeps (is_below set.old.length)) blocks.now ≡ true }
    ensures kept { IfOk result (λ o. IfSome o (λ v. v.items ≡ map (kept_block set.old.length starts.now) blocks.now)) }
    ensures closed { IfOk result (λ o. IfSome o (λ v. Closed set.old.length starts.now blocks.now)) }
{
    let mut empty = BitSet::new(alloc, set.len())?;
    let mut kept = Vec::with_capacity(alloc, blocks.len())?;
    for k in 0..blocks.len() {
        kept.push(kept_block(alloc, set, starts, &blocks[k])?)?;
        if !is_within(set, starts, k, &mut empty) {
            return Ok(None);
        }
    }
    Ok(Some(kept))
}

fn with_these(
    alloc: Global,
    function: &VFunc,
    starts: &[BitSet],
    blocks: Vec<Block<u32>>,
) -> Result<VFunc, AllocError>
    requires kept { blocks.items ≡ map (kept_block function.now.registers starts.now) function.now.code.blocks }
    requires closed { Closed function.now.registers starts.now function.now.code.blocks }
    ensures { IfOk result (λ w. Keeps (virtual_code function.now) (virtual_code w)) }
{
    let made = function.with_blocks(alloc, function.registers, Seq::from_vec(blocks))?;
    Ok(made)
}

/// The function without its dead lines, by what is wanted at the beginnings of its blocks, if that is closed.
fn without_dead(
    alloc: Global,
    function: &VFunc,
    starts: &[BitSet],
) -> Result<Option<VFunc>, AllocError>
    ensures { IfOk result (λ o. IfSome o (λ w. Keeps (virtual_code function.now) (virtual_code w))) }
{
    let mut set = BitSet::new(alloc, function.registers as usize)?;
    match kept_blocks(alloc, &mut set, starts, function.code.blocks.as_slice())? {
        Some(blocks) => Ok(Some(with_these(alloc, function, starts, blocks)?)),
        None => Ok(None),
    }
}

/// The function without its dead lines: those that do nothing but write a register whose value isn't used any more. Blocks of memory stay, but have no register
/// where their address isn't used. It takes a bit for each block and register.
///
/// # Errors
///
/// Only where memory was refused.
pub fn remove_dead_code(alloc: Global, function: &VFunc) -> Result<Option<VFunc>, AllocError>
    ensures { IfOk result (λ o. IfSome o (λ w. Keeps (virtual_code function.now) (virtual_code w))) }
{
    let guess = guessed(alloc, function)?;
    if guess.has_dead() {
        without_dead(alloc, function, guess.starts.as_slice())
    } else {
        Ok(None)
    }
}
