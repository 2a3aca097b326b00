//! The control-flow graph of a function: the blocks that each one leads to, those that lead to it, and those to which a way leads from the first.
ghost use Rattle.std.specs.Prelude.{◌≡◌, slice_get};
ghost use Rattle.flow.specs.Successors.{successors};

use il_ast::Few;
use std::alloc::{AllocError, Global};
use vcode::{Block, Jump};

/// The k-th block that the jump may lead to, from 0: a jump has at most two, and a branch both of its own, also where they are the same.
pub fn successor(jump: &Jump<u32>, k: usize) -> Option<usize>
    ensures { result ≡ slice_get (successors jump.now) k }
{
    match (jump, k) {
        (Jump::Goto(block), 0) => Some(*block),
        (Jump::Branch { met, .. }, 0) => Some(*met),
        (Jump::Branch { otherwise, .. }, 1) => Some(*otherwise),
        _ => None,
    }
}

fn push_predecessor(
    predecessors: &mut [Few<usize>],
    from: usize,
    to: Option<usize>,
) -> Result<(), AllocError> {
    match to.and_then(|to| predecessors.get_mut(to)) {
        Some(list) => list.push(from),
        None => Ok(()),
    }
}

/// The blocks that lead to each block, in the order of the text; a branch to one block by both its ways counts twice.
///
/// # Errors
///
/// Only where memory was refused.
pub fn predecessors(alloc: Global, blocks: &[Block<u32>]) -> Result<Vec<Few<usize>>, AllocError> {
    let mut predecessors = Vec::with_capacity(alloc, blocks.len())?;
    for _ in 0..blocks.len() {
        predecessors.push(Few::new(alloc))?;
    }
    for (from, block) in blocks.iter().enumerate() {
        push_predecessor(predecessors.as_mut_slice(), from, successor(&block.jump, 0))?;
        push_predecessor(predecessors.as_mut_slice(), from, successor(&block.jump, 1))?;
    }
    Ok(predecessors)
}

/// The blocks that lead to this one, of lists for all.
pub fn predecessors_of(predecessors: &[Few<usize>], block: usize) -> &[usize] {
    predecessors.get(block).map_or(&[], |list| list.as_slice())
}

/// Puts a block on the list of those that are to be looked at, unless it was found before.
fn find(found: &mut [bool], due: &mut Vec<usize>, block: Option<usize>) -> Result<(), AllocError> {
    if let Some(block) = block
        && let Some(mark) = found.get_mut(block)
        && !*mark
    {
        *mark = true;
        due.push(block)?;
    }
    Ok(())
}

/// For each block whether a way leads to it from the first. Each is looked at once: it takes time and memory as there are blocks.
///
/// # Errors
///
/// Only where memory was refused.
pub fn reachable(alloc: Global, blocks: &[Block<u32>]) -> Result<Vec<bool>, AllocError> {
    let mut found = vec![in alloc; false; blocks.len()]?;
    let mut due = Vec::with_capacity(alloc, blocks.len())?;
    find(found.as_mut_slice(), &mut due, Some(0))?;
    for _ in 0..blocks.len() {
        let Some(number) = due.pop() else {
            break;
        };
        if let Some(block) = blocks.get(number) {
            find(found.as_mut_slice(), &mut due, successor(&block.jump, 0))?;
            find(found.as_mut_slice(), &mut due, successor(&block.jump, 1))?;
        }
    }
    Ok(found)
}
