//! Loops that one block alone leads into, by jumps back in the text.
use crate::graph::{predecessors, predecessors_of, successor};
use il_ast::Few;
use std::alloc::{AllocError, Global};
use vcode::Block;

/// A loop, and the only block in front of it.
#[derive(Drop)]
pub struct Loop {
    /// its blocks, in the order of the text
    pub blocks: Vec<usize>,
    pub before: usize,
    pub head: usize,

    /// blocks that each round goes through, as far as they stand in a row behind the head or in front of the jump back
    pub always: Vec<usize>,
}

/// The blocks that lead to each block, and the number of the last loop that each was found in.
#[derive(Drop)]
struct Search {
    predecessors: Vec<Few<usize>>,
    found: Vec<usize>,

    /// how many more blocks may be found
    steps: usize,
}

/// How many blocks of loops are found for each block, at most.
const STEPS_A_BLOCK: usize = 64;

/// How many blocks of a loop are looked at in a row, at most.
const ROW: usize = 16;

/// Notes that the block is in the loop of that number; says whether that is new.
fn find(found: &mut [usize], block: usize, number: usize) -> bool {
    let Some(last) = found.get_mut(block) else {
        return false;
    };
    let is_new = *last != number;
    *last = number;
    is_new
}

fn find_all(
    found: &mut [usize],
    blocks: &mut Vec<usize>,
    predecessors: &[usize],
    number: usize,
) -> Result<(), AllocError> {
    for block in predecessors {
        if find(found, *block, number) {
            blocks.push(*block)?;
        }
    }
    Ok(())
}

/// Adds the blocks that lead to those of a loop without passing its head, the first of them; says whether they aren't too many.
fn find_members(
    search: &mut Search,
    blocks: &mut Vec<usize>,
    number: usize,
) -> Result<bool, AllocError> {
    for next in 1..search.steps {
        let Some(block) = blocks.get(next).copied() else {
            search.steps = search.steps.saturating_sub(next);
            return Ok(true);
        };
        let predecessors = predecessors_of(search.predecessors.as_slice(), block);
        find_all(search.found.as_mut_slice(), blocks, predecessors, number)?;
    }
    search.steps = 0;
    Ok(false)
}

fn is_found(search: &Search, block: usize, number: usize) -> bool {
    search.found.get(block) == Some(&number)
}

/// The only block outside a loop that leads to its head.
fn before(search: &Search, head: usize, number: usize) -> Option<usize> {
    let sources = predecessors_of(search.predecessors.as_slice(), head);
    let mut outside = sources
        .iter()
        .filter(|source| !is_found(search, **source, number));
    let before = outside.next()?;
    if outside.next().is_none() {
        Some(*before)
    } else {
        None
    }
}

/// The only block of the loop that leads to a block, if there is one.
fn only_source(search: &Search, block: usize) -> Option<usize> {
    match predecessors_of(search.predecessors.as_slice(), block) {
        [source] => Some(*source),
        _ => None,
    }
}

/// The only block of the loop that a block leads to, if nothing else leads there.
fn only_target(search: &Search, block: &Block<u32>, number: usize) -> Option<usize> {
    let inside = match (successor(&block.jump, 0), successor(&block.jump, 1)) {
        (Some(first), None) => first,
        (Some(first), Some(second)) => {
            if !is_found(search, second, number) {
                first
            } else if !is_found(search, first, number) {
                second
            } else {
                return None;
            }
        }
        _ => return None,
    };
    if is_found(search, inside, number) && only_source(search, inside).is_some() {
        Some(inside)
    } else {
        None
    }
}

/// Adds the head of a loop and the blocks in a row behind it.
fn add_behind(
    always: &mut Vec<usize>,
    search: &Search,
    blocks: &[Block<u32>],
    head: usize,
    number: usize,
) -> Result<(), AllocError> {
    let mut behind = head;
    for _ in 0..=ROW {
        always.push(behind)?;
        let Some(block) = blocks.get(behind) else {
            return Ok(());
        };
        match only_target(search, block, number) {
            Some(next) => behind = next,
            None => return Ok(()),
        }
    }
    Ok(())
}

/// Adds the block that jumps back and those in a row in front of it, up to the head.
fn add_in_front(
    always: &mut Vec<usize>,
    search: &Search,
    head: usize,
    last: usize,
) -> Result<(), AllocError> {
    let mut in_front = last;
    for _ in 0..=ROW {
        always.push(in_front)?;
        match only_source(search, in_front) {
            Some(next) if in_front != head => in_front = next,
            _ => return Ok(()),
        }
    }
    Ok(())
}

/// Finds the blocks of a loop besides its head, and that in front of it; says whether the loop is one with a single block in front of it, and not too large.
fn complete(
    nest: &mut Loop,
    search: &mut Search,
    code: &[Block<u32>],
    last: usize,
    number: usize,
) -> Result<bool, AllocError> {
    let head = nest.head;
    let found = search.found.as_mut_slice();
    find(found, head, number);
    find_all(found, &mut nest.blocks, &[last], number)?;
    if !find_members(search, &mut nest.blocks, number)? {
        return Ok(false);
    }
    match before(search, head, number) {
        Some(before) => nest.before = before,
        None => return Ok(false),
    }
    nest.blocks.sort()?;
    add_behind(&mut nest.always, search, code, head, number)?;
    add_in_front(&mut nest.always, search, head, last)?;
    Ok(true)
}

/// Adds the loop of a jump back, if one block alone leads into it.
fn push_loop(
    alloc: Global,
    search: &mut Search,
    code: &[Block<u32>],
    loops: &mut Vec<Loop>,
    head: usize,
    last: usize,
) -> Result<(), AllocError> {
    let mut nest = Loop {
        blocks: vec![in alloc; head; 1]?,
        before: 0,
        head,
        always: Vec::new(alloc),
    };
    let number = loops.len().saturating_add(1);
    if complete(&mut nest, search, code, last, number)? {
        loops.push(nest)?;
    }
    Ok(())
}

/// Whether the block of that number leads to itself or one before it.
pub fn is_back(number: usize, to: Option<usize>) -> bool {
    to.is_some_and(|to| to <= number)
}

/// Whether some block does.
fn leads_back(blocks: &[Block<u32>]) -> bool {
    blocks.iter().enumerate().any(|(number, block)| {
        is_back(number, successor(&block.jump, 0)) || is_back(number, successor(&block.jump, 1))
    })
}

/// Adds the loops that one block alone leads into.
///
/// # Errors
///
/// Only where memory was refused.
pub fn find_loops(
    alloc: Global,
    loops: &mut Vec<Loop>,
    blocks: &[Block<u32>],
) -> Result<(), AllocError> {
    if !leads_back(blocks) {
        return Ok(());
    }
    let mut search = Search {
        predecessors: predecessors(alloc, blocks)?,
        found: vec![in alloc; 0usize; blocks.len()]?,
        steps: blocks.len().saturating_mul(STEPS_A_BLOCK),
    };
    for (number, block) in blocks.iter().enumerate() {
        for to in [successor(&block.jump, 0), successor(&block.jump, 1)] {
            if let Some(head) = to
                && head <= number
                && 0 < head
            {
                push_loop(alloc, &mut search, blocks, loops, head, number)?;
            }
        }
    }
    Ok(())
}

/// The numbers of the loops by their sizes, the largest first, each behind what it is sorted by.
///
/// # Errors
///
/// Only where memory was refused.
pub fn largest_first(alloc: Global, loops: &[Loop]) -> Result<Vec<(usize, usize)>, AllocError> {
    let sizes = loops.iter().enumerate();
    let keys = sizes.map(|(number, nest)| (usize::MAX - nest.blocks.len(), number));
    let mut order: Vec<(usize, usize)> = keys.collect(alloc)?;
    order.sort()?;
    Ok(order)
}
