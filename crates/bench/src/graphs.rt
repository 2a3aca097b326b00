//! Graphs of many blocks of points, whose shapes are hard on a search for live registers.
use cfg_live::{Graph, Uses};
use il_ast::{Few, Seq};
use std::alloc::{AllocError, Global};

/// How many points a block has.
const POINTS: u32 = 40;

/// How many registers there are.
pub const REGISTERS: u32 = 4000;

/// Where the blocks stand, and where they lead.
#[derive(Clone, Copy)]
pub enum Shape {
    /// Each leads to the next, and every tenth also nine back. The text has them in reverse. Each point reads a register and writes one.
    Reversed,
    /// Each leads to the next, and every other also three back, so that what is live far ahead gets here by steps ahead and back in turn. Each reads a register.
    Ladder,
    /// Each pair, a head and an end, is a loop around all later pairs. Each reads a register.
    Nest,
}

/// The place of a block in the text.
fn place(shape: Shape, blocks: u32, block: u32) -> u32 {
    match shape {
        Shape::Reversed => blocks.saturating_sub(block).saturating_sub(1),
        Shape::Ladder | Shape::Nest => block,
    }
}

/// The block that a block leads to, and one more.
fn next_blocks(shape: Shape, blocks: u32, block: u32) -> (u32, Option<u32>) {
    let last = blocks.saturating_sub(1);
    let ahead = block.saturating_add(1).min(last);
    let inner = block.saturating_add(2);
    match (shape, block % 2) {
        (Shape::Reversed, _) if block % 10 == 9 => (ahead, block.checked_sub(9)),
        (Shape::Ladder, 1) => (ahead, block.checked_sub(3)),
        (Shape::Nest, 1) => (block.saturating_sub(1), None),
        (Shape::Nest, _) if inner < blocks => (inner, block.checked_sub(1)),
        (Shape::Nest, _) => (ahead, block.checked_sub(1)),
        (Shape::Reversed | Shape::Ladder, _) => (ahead, None),
    }
}

/// The first point of a block.
fn start(shape: Shape, blocks: u32, block: u32) -> usize {
    place(shape, blocks, block).wrapping_mul(POINTS) as usize
}

/// The register that a point of a block reads, if any, and the one that it writes.
fn registers(shape: Shape, block: u32, point: u32) -> (Option<u32>, Option<u32>) {
    let number = block.wrapping_mul(POINTS).wrapping_add(point);
    match shape {
        Shape::Reversed => (
            Some(number.wrapping_mul(7) % REGISTERS),
            Some(number.wrapping_mul(3) % REGISTERS),
        ),
        Shape::Ladder | Shape::Nest if point == 0 => (Some(block % REGISTERS), None),
        Shape::Ladder | Shape::Nest => (None, None),
    }
}

/// Adds a point of a block: what it reads and writes, and what comes after it.
fn push_point(
    alloc: Global,
    graph: &mut Graph,
    shape: Shape,
    blocks: u32,
    block: u32,
    point: u32,
) -> Result<(), AllocError> {
    let (read, writes) = registers(shape, block, point);
    let mut reads = Few::new(alloc);
    if let Some(register) = read {
        reads.push(register)?;
    }
    graph.uses.push(Uses { reads, writes })?;
    let mut next = Few::new(alloc);
    if point < POINTS - 1 {
        next.push(graph.nexts.len().saturating_add(1))?;
    } else {
        let (ahead, other) = next_blocks(shape, blocks, block);
        next.push(start(shape, blocks, ahead))?;
        if let Some(other) = other {
            next.push(start(shape, blocks, other))?;
        }
    }
    graph.nexts.push(next)
}

/// The graph of so many blocks.
///
/// # Errors
///
/// Only where memory was refused.
pub fn graph_of(alloc: Global, shape: Shape, blocks: u32) -> Result<Graph, AllocError> {
    let mut graph = Graph {
        uses: Seq::new(alloc),
        nexts: Seq::new(alloc),
    };
    for standing in 0..blocks {
        let block = place(shape, blocks, standing);
        for point in 0..POINTS {
            push_point(alloc, &mut graph, shape, blocks, block, point)?;
        }
    }
    Ok(graph)
}
