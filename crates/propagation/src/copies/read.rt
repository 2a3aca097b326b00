//! Blocks and functions that read copies.
ghost use Rattle.std.specs.Prelude.{◌≡◌, map, OnOk, IfOk, IfSome};
ghost use Rattle.il_ast.specs.Prelude.{Keeps};
ghost use Rattle.vcode.specs.Prelude.{virtual_code};
ghost use Rattle.propagation.specs.Copied.{reading_lines, known_behind, reading_block};

use crate::copies::known::KnownCopies;
use crate::copies::sources::read_sources;
use il_ast::Seq;
use std::alloc::{AllocError, Global};
use vcode::replace::{jump, line};
use vcode::{Block, Line, VFunc};

fn lines(
    alloc: Global,
    known: &mut KnownCopies,
    from: &[Line<u32>],
) -> Result<Seq<Line<u32>>, AllocError>
    ensures lines { IfOk result (λ v. v ≡ reading_lines known.old.copies.items from.now) }
    ensures known { OnOk result (known.new.copies.items ≡ known_behind known.old.copies.items from.now) }
{
    let mut made = Vec::with_capacity(alloc, from.len())?;
    for item in from {
        let put = line(alloc, known, item)?;
        known.pass(&put)?;
        made.push(put)?;
    }
    Ok(Seq::from_vec(made))
}

fn block(alloc: Global, from: &Block<u32>) -> Result<Block<u32>, AllocError>
    ensures { IfOk result (λ v. v ≡ reading_block from.now) }
{
    let mut known = KnownCopies::nothing(alloc);
    let lines = lines(alloc, &mut known, from.lines.as_slice())?;
    let jump = jump(&known, &from.jump);
    Ok(Block { lines, jump })
}

fn blocks(alloc: Global, from: &[Block<u32>]) -> Result<Seq<Block<u32>>, AllocError>
    ensures { IfOk result (λ v. v ≡ map reading_block from.now) }
{
    let mut made = Vec::with_capacity(alloc, from.len())?;
    for item in from {
        made.push(block(alloc, item)?)?;
    }
    Ok(Seq::from_vec(made))
}

/// The function, whose lines and jumps all read the first known copy of a register in place of it.
fn reading(alloc: Global, function: &VFunc) -> Result<VFunc, AllocError>
    ensures { IfOk result (λ w. Keeps (virtual_code function.now) (virtual_code w)) }
{
    let blocks = blocks(alloc, function.code.blocks.as_slice())?;
    let made = function.with_blocks(alloc, function.registers, blocks)?;
    Ok(made)
}

/// The function, in which lines and jumps read the first known copy of a register in place of it: behind a line of the same block that copies it, until either
/// register is written. At most 16 copies are known at a time. It takes time and memory as the text is long.
///
/// # Errors
///
/// Only where memory was refused.
pub fn propagate_copies(alloc: Global, function: &VFunc) -> Result<Option<VFunc>, AllocError>
    ensures { IfOk result (λ o. IfSome o (λ w. Keeps (virtual_code function.now) (virtual_code w))) }
{
    if !read_sources(function.code.blocks.as_slice()) {
        return Ok(None);
    }
    let made = reading(alloc, function)?;
    Ok(Some(made))
}
