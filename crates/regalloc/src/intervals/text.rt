//! The blocks of a function: where they stand in its text, how often they run, and which lead to which.
use cfg_live::Live;
use flow::depths::{frequency, loop_depths};
use flow::graph::{predecessors, successor};
use il_ast::Few;
use std::alloc::{AllocError, Global};
use vcode::{Block, Line};

/// A block in the text.
#[derive(Clone, Copy)]
pub(crate) struct Stretch {
    /// its first point
    pub(crate) first: usize,

    /// the point of its jump, the last one
    pub(crate) jump: usize,

    /// in how many loops it lies
    pub(crate) depth: u32,

    /// the blocks that it may lead to
    pub(crate) targets: [Option<usize>; 2],
}

/// All blocks of a function.
#[derive(Drop)]
pub(crate) struct Text {
    pub(crate) stretches: Vec<Stretch>,

    /// the blocks that lead to each block
    sources: Vec<Few<usize>>,
}

impl Text {
    /// The block with that number, if there is one.
    pub(crate) fn stretch(&self, block: usize) -> Option<Stretch> {
        self.stretches.get(block).copied()
    }

    /// The blocks that this one may lead to.
    pub(crate) fn targets(&self, block: usize) -> [Option<usize>; 2] {
        let stretch = self.stretches.get(block);
        stretch.map_or([None, None], |stretch| stretch.targets)
    }

    /// The blocks that lead to this one.
    pub(crate) fn sources(&self, block: usize) -> &[usize] {
        let sources = self.sources.get(block);
        sources.map_or(&[], |sources| sources.as_slice())
    }

    /// The number of the block with this point; 0 where there is no such point.
    pub(crate) fn block_of(&self, point: usize) -> usize {
        let before = self
            .stretches
            .partition_point(|stretch| stretch.jump < point);
        if before < self.stretches.len() {
            before
        } else {
            0
        }
    }

    /// How many points the function has.
    pub(crate) fn points(&self) -> usize {
        let last = self.stretches.last();
        last.map_or(0, |last| last.jump.saturating_add(1))
    }

    /// In how many loops the block lies.
    pub(crate) fn depth(&self, block: usize) -> u32 {
        self.stretch(block).map_or(0, |stretch| stretch.depth)
    }

    /// Whether the register is live where the block begins.
    pub(crate) fn is_live(&self, live: &Live, block: usize, register: u32) -> bool {
        let stretch = self.stretch(block);
        stretch.is_some_and(|stretch| live.holds(stretch.first, register))
    }

    /// How often the block runs, where one that lies in no loop runs once.
    pub(crate) fn often(&self, block: usize) -> u64 {
        frequency(self.depth(block))
    }
}

/// The blocks, with those that lead to each of them.
pub(crate) fn text_of(alloc: Global, blocks: &[Block<u32>]) -> Result<Text, AllocError> {
    let sources = predecessors(alloc, blocks)?;
    let depths = loop_depths(alloc, blocks, sources.as_slice())?;
    let mut stretches = Vec::with_capacity(alloc, blocks.len())?;
    let mut first = 0usize;
    for (number, block) in blocks.iter().enumerate() {
        let lines = block.lines.as_slice().iter();
        let points = lines.filter(|line| !matches!(line, Line::Tick { .. }));
        let jump = first.saturating_add(points.count());
        stretches.push(Stretch {
            first,
            jump,
            depth: depths.get(number).copied().unwrap_or(0),
            targets: [successor(&block.jump, 0), successor(&block.jump, 1)],
        })?;
        first = jump.saturating_add(1);
    }
    Ok(Text { stretches, sources })
}
