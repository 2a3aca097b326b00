//! An order of blocks by a guess at what runs often: chains of blocks of which each leads to the next.
use crate::tails::choice::is_marked;
use flow::depths::depths;
use flow::graph::{reachable, successor};
use std::alloc::{AllocError, Global};
use vcode::{Block, Jump};

/// Blocks in more loops than that are as those in so many.
const DEEPEST: u32 = 5;

/// A block of a chain.
#[derive(Clone, Copy)]
struct Link {
    before: Option<usize>,
    behind: Option<usize>,

    /// of the first block of a chain the last one, and of the last the first
    end: usize,
}

/// A chain for each block.
fn single_links(alloc: Global, blocks: usize) -> Result<Vec<Link>, AllocError> {
    let alone = Link {
        before: None,
        behind: None,
        end: 0,
    };
    let mut links = vec![in alloc; alone; blocks]?;
    for (block, link) in links.iter_mut().enumerate() {
        link.end = block;
    }
    Ok(links)
}

fn behind(links: &[Link], block: usize) -> Option<usize> {
    links.get(block)?.behind
}

fn before(links: &[Link], block: usize) -> Option<usize> {
    links.get(block)?.before
}

fn end(links: &[Link], block: usize) -> usize {
    links.get(block).map_or(block, |link| link.end)
}

fn set_end(links: &mut [Link], block: usize, end: usize) {
    if let Some(link) = links.get_mut(block) {
        link.end = end;
    }
}

/// Makes one chain of the one that ends with the first block and the one that begins with the second, where these are two.
fn join(links: &mut [Link], from: usize, to: usize) {
    let first = end(links, from);
    let last = end(links, to);
    let ends_and_begins = behind(links, from).is_none() && before(links, to).is_none();
    if from >= links.len() || to >= links.len() || !ends_and_begins || first == to {
        return;
    }
    if let Some(link) = links.get_mut(from) {
        link.behind = Some(to);
    }
    if let Some(link) = links.get_mut(to) {
        link.before = Some(from);
    }
    set_end(links, first, last);
    set_end(links, last, first);
}

/// In how many loops a way lies: in those of both ends.
fn way_depth(depths: &[u32], from: usize, to: usize) -> u32 {
    match (depths.get(from), depths.get(to)) {
        (Some(from), Some(to)) => (*from).min(*to).min(DEEPEST),
        _ => 0,
    }
}

/// The most loops in which a way lies.
fn most_depth(depths: &[u32]) -> u32 {
    depths.iter().copied().max().unwrap_or(0)
}

/// Joins blocks to those to which they go at once, in so many loops: each saves a jump.
fn join_gotos(
    links: &mut [Link],
    blocks: &[Block<u32>],
    reached: &[bool],
    depths: &[u32],
    depth: u32,
) {
    for (from, block) in blocks.iter().enumerate() {
        if let Jump::Goto(to) = &block.jump
            && is_marked(reached, from)
            && way_depth(depths, from, *to) == depth
        {
            join(links, from, *to);
        }
    }
}

/// Joins a block to the one of two to which it branches more often, or else to the other.
fn join_branch(links: &mut [Link], depths: &[u32], from: usize, met: usize, otherwise: usize) {
    if way_depth(depths, from, met) < way_depth(depths, from, otherwise) {
        join(links, from, otherwise);
        join(links, from, met);
    } else {
        join(links, from, met);
        join(links, from, otherwise);
    }
}

/// Joins blocks to one of two to which they branch. Either saves a jump beside the branch, which the way that is taken less often would take.
fn join_branches(
    links: &mut [Link],
    blocks: &[Block<u32>],
    reached: &[bool],
    depths: &[u32],
    depth: u32,
) {
    for (from, block) in blocks.iter().enumerate() {
        if let Jump::Branch { met, otherwise, .. } = &block.jump
            && is_marked(reached, from)
            && way_depth(depths, from, *met).min(way_depth(depths, from, *otherwise)) == depth
        {
            join_branch(links, depths, from, *met, *otherwise);
        }
    }
}

/// Chains of blocks that are reached: first those ways are taken that lie in the most loops, and of these the ones that leave no choice.
fn chains(alloc: Global, blocks: &[Block<u32>], reached: &[bool]) -> Result<Vec<Link>, AllocError> {
    let all = depths(alloc, blocks)?;
    let depths = all.as_slice();
    let most = most_depth(depths);
    let mut links = single_links(alloc, blocks.len())?;
    for depth in (0..DEEPEST + 1).rev() {
        if depth <= most {
            join_gotos(links.as_mut_slice(), blocks, reached, depths, depth);
            join_branches(links.as_mut_slice(), blocks, reached, depths, depth);
        }
    }
    Ok(links)
}

/// The first block of the chain that is best put last: its return takes no jump to the end of the frame. A block that returns is the last of its chain.
fn last_chain(links: &[Link], blocks: &[Block<u32>], reached: &[bool]) -> Option<usize> {
    blocks
        .iter()
        .enumerate()
        .filter(|(number, block)| {
            matches!(block.jump, Jump::Return(_)) && is_marked(reached, *number)
        })
        .map(|(number, _)| end(links, number))
        .filter(|first| *first != 0)
        .last()
}

/// Blocks that are put in order.
#[derive(Drop)]
struct Placing {
    order: Vec<usize>,

    /// for each block whether it is to be placed
    is_open: Vec<bool>,

    /// blocks whose chains come next, the last one first
    next: Vec<usize>,
}

fn first_of(links: &[Link], block: usize) -> usize {
    let mut first = block;
    for _ in 0..links.len() {
        match before(links, first) {
            Some(block) => first = block,
            None => return first,
        }
    }
    first
}

fn push_target(placing: &mut Placing, block: Option<usize>) -> Result<(), AllocError> {
    if let Some(block) = block {
        placing.next.push(block)?;
    }
    Ok(())
}

/// Places a block, and then those to which it leads. One of the chain that comes last waits for its place.
fn place_block(
    placing: &mut Placing,
    blocks: &[Block<u32>],
    number: usize,
    is_last: bool,
) -> Result<(), AllocError> {
    if let Some(is_open) = placing.is_open.get_mut(number) {
        *is_open = false;
    }
    if !is_last {
        placing.order.push(number)?;
    }
    let Some(block) = blocks.get(number) else {
        return Ok(());
    };
    push_target(placing, successor(&block.jump, 1))?;
    push_target(placing, successor(&block.jump, 0))
}

fn place_chain(
    placing: &mut Placing,
    links: &[Link],
    blocks: &[Block<u32>],
    first: usize,
    is_last: bool,
) -> Result<(), AllocError> {
    let mut number = first;
    for _ in 0..links.len() {
        place_block(placing, blocks, number, is_last)?;
        match behind(links, number) {
            Some(next) => number = next,
            None => return Ok(()),
        }
    }
    Ok(())
}

/// Places the chains to which those lead that are placed, near these. Each block is placed once, and has at most two targets.
fn place_chains(
    placing: &mut Placing,
    links: &[Link],
    blocks: &[Block<u32>],
    last: Option<usize>,
) -> Result<(), AllocError> {
    for _ in 0..blocks.len().saturating_mul(2).saturating_add(1) {
        let Some(block) = placing.next.pop() else {
            break;
        };
        if placing.is_open.get(block) == Some(&true) {
            let first = first_of(links, block);
            place_chain(placing, links, blocks, first, last == Some(first))?;
        }
    }
    Ok(())
}

/// Places the chain that comes last.
fn place_last(
    placing: &mut Placing,
    links: &[Link],
    last: Option<usize>,
) -> Result<(), AllocError> {
    let mut next = last;
    for _ in 0..links.len() {
        let Some(number) = next else {
            break;
        };
        placing.order.push(number)?;
        next = behind(links, number);
    }
    Ok(())
}

/// An order of the blocks in which often run jumps lead to the next block, without those to which no way leads. It takes time and memory as there are blocks,
/// and as finding their loops does.
///
/// # Errors
///
/// Only where memory was refused.
pub fn chained(alloc: Global, blocks: &[Block<u32>]) -> Result<Vec<usize>, AllocError> {
    let reached = reachable(alloc, blocks)?;
    let links = chains(alloc, blocks, reached.as_slice())?;
    let last = last_chain(links.as_slice(), blocks, reached.as_slice());
    let mut placing = Placing {
        order: Vec::with_capacity(alloc, blocks.len())?,
        is_open: reached,
        next: Vec::with_capacity(alloc, blocks.len())?,
    };
    push_target(&mut placing, Some(0))?;
    place_chains(&mut placing, links.as_slice(), blocks, last)?;
    place_last(&mut placing, links.as_slice(), last)?;
    Ok(placing.order)
}
