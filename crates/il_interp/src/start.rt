//! The memory that a program starts in.
ghost use Rattle.std.specs.Prelude.{◌≡◌, ℕ, List, ◌∷◌, [], ◌++◌, map, length, Some, IfOk, OnOk};
ghost use Rattle.il_ast.specs.declared.datum.DataDef.{DataDef as DataDefOf};
ghost use Rattle.il_ast.specs.declared.program.InText.{InText as InTextOf};
ghost use Rattle.il_ast.specs.Prelude.{object_cells, word_cells, pointers_from, list_cells, start_memory};
ghost use Rattle.obj_link.specs.Prelude.{program};

use crate::instruction::MOST_BLOCKS;
use crate::object::{object_block, push_bytes, push_parts, push_zeros};
use il_ast::{Cell, Value};
use il_mem::block::Block;
use il_mem::memory::BlockMemory;
use obj_link::Linked;
use std::alloc::{AllocError, Global};

/// The memory that a program starts in: a block for each datum, then one for each word, then one for
/// the list of words.
pub fn start_memory(
    alloc: Global,
    linked: &Linked<'_>,
    words: &[&[u8]],
) -> Result<BlockMemory, AllocError>
    ensures { IfOk result (λ memory. memory ≡ start_memory (program linked.now) (map (λ w. w.now) words.now)) }
{
    let mut memory = BlockMemory::new(alloc);
    add_objects(alloc, &mut memory, linked)?;
    add_words(alloc, &mut memory, words)?;
    let list = list_block(alloc, linked.objects.len(), words.len())?;
    add(&mut memory, list)?;
    Ok(memory)
}

fn add(memory: &mut BlockMemory, block: Block) -> Result<(), AllocError>
    ensures { OnOk result (memory.new ≡ memory.old ++ Some block ∷ []) }
{
    if memory.made() >= MOST_BLOCKS {
        return Err(AllocError);
    }
    let _ = memory.add(block)?;
    Ok(())
}

fn add_objects(
    alloc: Global,
    memory: &mut BlockMemory,
    linked: &Linked<'_>,
) -> Result<(), AllocError>
    ensures { OnOk result (memory.new ≡ memory.old ++ map (λ (d : InTextOf DataDefOf). Some (object_cells (program linked.now) d)) (program linked.now).objects) }
{
    let objects = linked.objects.as_slice();
    for object in objects {
        let block = object_block(alloc, linked, object)?;
        add(memory, block)?;
    }
    Ok(())
}

/// An argument word, with its closing zero.
fn word_block(alloc: Global, word: &[u8]) -> Result<Block, AllocError>
    ensures { IfOk result (λ block. block ≡ word_cells word.now) }
{
    let mut block = Block::empty(alloc);
    push_bytes(&mut block, word)?;
    block.push(Cell::Plain(0))?;
    Ok(block)
}

fn add_words(alloc: Global, memory: &mut BlockMemory, words: &[&[u8]]) -> Result<(), AllocError>
    ensures { OnOk result (memory.new ≡ memory.old ++ map (λ (w : List ℕ). Some (word_cells w)) (map (λ w. w.now) words.now)) }
{
    for word in words {
        let block = word_block(alloc, *word)?;
        add(memory, block)?;
    }
    Ok(())
}

/// Puts pointers to so many blocks, from a number on, at the end of a block.
fn push_pointers(block: &mut Block, first: usize, count: usize) -> Result<(), AllocError>
    ensures { OnOk result (block.new ≡ block.old ++ pointers_from first count) }
{
    let start = first as u128;
    for number in 0..count {
        let value = Value::Pointer {
            block: start + number as u128,
            offset: 0,
        };
        push_parts(block, value)?;
    }
    Ok(())
}

/// The list of argument words, of which the first has this block.
fn list_block(alloc: Global, first: usize, count: usize) -> Result<Block, AllocError>
    ensures { IfOk result (λ block. block ≡ list_cells first count) }
{
    let mut block = Block::empty(alloc);
    push_pointers(&mut block, first, count)?;
    push_zeros(&mut block, 8)?;
    Ok(block)
}
