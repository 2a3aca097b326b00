//! The blocks that dominate the one in front of a loop, as far as each is the only predecessor of the next: what they compute is there in front of the loop, too.
use cfg_live::uses::line_writes;
use flow::depths::loop_depths;
use flow::graph::{predecessors, predecessors_of, successor};
use il_ast::Few;
use std::alloc::{AllocError, Global};
use vcode::{Block, Operand};

/// How many of them are looked at, at most.
const MOST: usize = 4;

/// How many lines they have each, at most.
const LINES: usize = 64;

/// A dominator, and the registers that are written between its end and the loop.
#[derive(Drop)]
pub(crate) struct Dominator {
    pub(crate) block: usize,
    behind: Vec<u32>,
}

impl Dominator {
    /// Whether the operand holds the same at the end of this block as in front of the loop.
    pub(crate) fn keeps(&self, operand: &Operand<u32>) -> bool {
        match operand {
            Operand::At(register) => !self.behind.contains(register),
            _ => true,
        }
    }
}

/// The predecessors of each block, and in how many loops it lies.
#[derive(Drop)]
pub(crate) struct Graph {
    predecessors: Vec<Few<usize>>,
    depths: Vec<u32>,
}

impl Graph {
    /// # Errors
    ///
    /// Only where memory was refused.
    pub(crate) fn new(alloc: Global, blocks: &[Block<u32>]) -> Result<Graph, AllocError> {
        let predecessors = predecessors(alloc, blocks)?;
        let depths = loop_depths(alloc, blocks, predecessors.as_slice())?;
        Ok(Graph {
            predecessors,
            depths,
        })
    }

    fn depth(&self, block: usize) -> u32 {
        self.depths.get(block).copied().unwrap_or(0)
    }

    /// Whether a short block leads to another always, or until the loop around both ends.
    fn leads_on(&self, blocks: &[Block<u32>], from: usize, to: usize) -> bool {
        let Some(block) = blocks.get(from) else {
            return false;
        };
        if self.depth(from) != self.depth(to) || block.lines.len() > LINES {
            return false;
        }
        match (successor(&block.jump, 0), successor(&block.jump, 1)) {
            (Some(_), None) => true,
            (Some(first), Some(second)) => {
                let other = if first == to { second } else { first };
                self.depth(other) < self.depth(to)
            }
            _ => false,
        }
    }

    /// The only predecessor, if it leads on.
    fn dominator(&self, blocks: &[Block<u32>], block: usize) -> Option<usize> {
        match predecessors_of(self.predecessors.as_slice(), block) {
            [source] if self.leads_on(blocks, *source, block) => Some(*source),
            _ => None,
        }
    }
}

/// The registers that a block writes, and those behind it.
fn with_writes(
    alloc: Global,
    behind: &[u32],
    block: Option<&Block<u32>>,
) -> Result<Vec<u32>, AllocError> {
    let mut written = Vec::new(alloc);
    written.extend_from_slice(behind)?;
    if let Some(block) = block {
        for line in block.lines.as_slice() {
            if let Some(register) = line_writes(line) {
                written.push(register)?;
            }
        }
    }
    Ok(written)
}

/// The dominators of the block in front of a loop, the furthest first and that block itself last.
///
/// # Errors
///
/// Only where memory was refused.
pub(crate) fn dominators_of(
    alloc: Global,
    graph: &Graph,
    blocks: &[Block<u32>],
    before: usize,
) -> Result<Vec<Dominator>, AllocError> {
    let mut dominators = Vec::new(alloc);
    let mut block = before;
    let mut behind = Vec::new(alloc);
    for _ in 0..MOST {
        let next = with_writes(alloc, behind.as_slice(), blocks.get(block))?;
        dominators.push(Dominator { block, behind })?;
        behind = next;
        match graph.dominator(blocks, block) {
            Some(source) => block = source,
            None => break,
        }
    }
    dominators.reverse();
    Ok(dominators)
}
