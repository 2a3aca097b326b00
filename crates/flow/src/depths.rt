//! In how many loops each block lies.
ghost use Rattle.std.specs.Prelude.{◌<◌, ◌≤◌};

use crate::graph::{predecessors, predecessors_of, successor};
use il_ast::Few;
use std::alloc::{AllocError, Global};
use vcode::Block;

/// From a block to another.
#[derive(Clone, Copy, PartialEq, Eq, PartialOrd, Ord)]
struct Edge {
    to: usize,
    from: usize,
}

/// How far the search for ways back has come with a block.
#[derive(Clone, Copy)]
enum Visit {
    New,
    Open,
    Done,
}

/// A block on the way that is searched, and how many of its ways on have been tried.
#[derive(Clone, Copy)]
struct Step {
    block: usize,
    tried: usize,
}

#[derive(Drop)]
struct Search {
    visits: Vec<Visit>,
    way: Vec<Step>,

    /// the edges to blocks that lie on the way to their own beginning
    back: Vec<Edge>,
}

/// The block that the next way on leads to.
fn next_of(blocks: &[Block<u32>], step: Step) -> Option<usize> {
    successor(&blocks.get(step.block)?.jump, step.tried)
}

fn mark(visits: &mut [Visit], block: usize, visit: Visit) {
    if let Some(at) = visits.get_mut(block) {
        *at = visit;
    }
}

fn enter(search: &mut Search, block: usize) -> Result<(), AllocError> {
    mark(search.visits.as_mut_slice(), block, Visit::Open);
    search.way.push(Step { block, tried: 0 })?;
    Ok(())
}

fn follow(search: &mut Search, from: usize, to: usize) -> Result<(), AllocError> {
    match search.visits.get(to).copied() {
        Some(Visit::New) => enter(search, to),
        Some(Visit::Open) => {
            search.back.push(Edge { to, from })?;
            Ok(())
        }
        _ => Ok(()),
    }
}

/// One more way on is tried, or the last block is left.
fn search_on(search: &mut Search, blocks: &[Block<u32>]) -> Result<(), AllocError> {
    let Some(step) = search.way.pop() else {
        return Ok(());
    };
    match next_of(blocks, step) {
        Some(to) => {
            search.way.push(Step {
                block: step.block,
                tried: step.tried.saturating_add(1),
            })?;
            follow(search, step.block, to)
        }
        None => {
            mark(search.visits.as_mut_slice(), step.block, Visit::Done);
            Ok(())
        }
    }
}

/// The edges to blocks that lie on the way to their own beginning, in order. Each block is entered and left once, and has at most two ways on.
fn back_edges(alloc: Global, blocks: &[Block<u32>]) -> Result<Vec<Edge>, AllocError> {
    let mut search = Search {
        visits: vec![in alloc; Visit::New; blocks.len()]?,
        way: Vec::with_capacity(alloc, blocks.len())?,
        back: Vec::new(alloc),
    };
    enter(&mut search, 0)?;
    for _ in 0..blocks.len().saturating_mul(3) {
        search_on(&mut search, blocks)?;
    }
    search.back.sort()?;
    Ok(search.back)
}

/// A block: in how many loops it was found to be, and the last one's head.
#[derive(Clone, Copy)]
struct Nest {
    depth: u32,
    head: Option<usize>,
}

/// Counts the loop with this head for the block, unless that was done.
fn count(nests: &mut [Nest], block: usize, head: usize) -> bool {
    let Some(nest) = nests.get_mut(block) else {
        return false;
    };
    let is_new = nest.head != Some(head);
    if is_new {
        nest.depth = nest.depth.saturating_add(1);
        nest.head = Some(head);
    }
    is_new
}

fn push_new(
    nests: &mut [Nest],
    found: &mut Vec<usize>,
    sources: &[usize],
    head: usize,
) -> Result<(), AllocError> {
    for block in sources {
        if count(nests, *block, head) {
            found.push(*block)?;
        }
    }
    Ok(())
}

/// The blocks from which the jump back is reached without passing the head. Answers how many steps of those that may be taken are left.
fn count_loop(
    alloc: Global,
    nests: &mut [Nest],
    edges: &[Few<usize>],
    edge: Edge,
    steps: usize,
) -> Result<usize, AllocError> {
    let mut found = Vec::new(alloc);
    count(nests, edge.to, edge.to);
    push_new(nests, &mut found, [edge.from].as_slice(), edge.to)?;
    for taken in 0..steps {
        match found.pop() {
            Some(block) => push_new(nests, &mut found, predecessors_of(edges, block), edge.to)?,
            None => return Ok(steps - taken),
        }
    }
    Ok(0)
}

/// Where loops are so many and so large that finding their blocks would take far longer than the text, the rest is left uncounted.
const STEPS_A_BLOCK: usize = 64;

/// In how many loops each block lies, of which these are the jumps back.
fn count_depths(
    alloc: Global,
    edges: &[Few<usize>],
    back: &[Edge],
    blocks: usize,
) -> Result<Vec<u32>, AllocError> {
    let nest = Nest {
        depth: 0,
        head: None,
    };
    let mut nests = vec![in alloc; nest; blocks]?;
    let mut steps = blocks.saturating_mul(STEPS_A_BLOCK);
    for edge in back {
        steps = count_loop(alloc, nests.as_mut_slice(), edges, *edge, steps)?;
    }
    nests.iter().map(|nest| nest.depth).collect(alloc)
}

/// In how many loops each block lies, where the lists of predecessors are there.
///
/// # Errors
///
/// Only where memory was refused.
pub fn loop_depths(
    alloc: Global,
    blocks: &[Block<u32>],
    predecessors: &[Few<usize>],
) -> Result<Vec<u32>, AllocError> {
    let back = back_edges(alloc, blocks)?;
    if back.is_empty() {
        return vec![in alloc; 0u32; blocks.len()];
    }
    count_depths(alloc, predecessors, back.as_slice(), blocks.len())
}

/// In how many loops each block lies: predecessors are found where there are loops alone.
///
/// # Errors
///
/// Only where memory was refused.
pub fn depths(alloc: Global, blocks: &[Block<u32>]) -> Result<Vec<u32>, AllocError> {
    let back = back_edges(alloc, blocks)?;
    if back.is_empty() {
        return vec![in alloc; 0u32; blocks.len()];
    }
    let lists = predecessors(alloc, blocks)?;
    count_depths(alloc, lists.as_slice(), back.as_slice(), blocks.len())
}

/// How often a block is run that lies in so many loops, if each goes round ten times.
pub fn frequency(depth: u32) -> u64
    ensures some { 0 < result }
    ensures few { result ≤ 100000 }
{
    match depth {
        0 => 1,
        1 => 10,
        2 => 100,
        3 => 1000,
        4 => 10000,
        _ => 100000,
    }
}
