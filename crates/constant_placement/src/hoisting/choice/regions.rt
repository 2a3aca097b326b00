//! Loops that hang together.
use flow::graph::{predecessors_of, successor};
use il_ast::Few;
use std::alloc::{AllocError, Global};
use vcode::{Block, Line};

/// What is known of a region: all blocks of loops that lead to one another, in whatever order.
#[derive(Clone, Copy)]
pub(crate) struct Region {
    /// how many blocks outside lead into it
    pub(crate) entries: u32,
    pub(crate) has_calls: bool,
    pub(crate) blocks: u32,
}

#[derive(Drop)]
pub(crate) struct Regions {
    /// of each block: the number of its region from 1 on, or 0 where it lies in no loop
    pub(crate) numbers: Vec<usize>,

    /// the regions by number; that of number 0 is none
    pub(crate) list: Vec<Region>,
}

impl Regions {
    /// The number of a block's region, or 0.
    pub(crate) fn number(&self, block: usize) -> usize {
        self.numbers.get(block).copied().unwrap_or(0)
    }
}

/// Blocks that are joined to regions.
#[derive(Drop)]
struct Joining<'a> {
    blocks: &'a [Block<u32>],
    depths: &'a [u32],
    predecessors: &'a [Few<usize>],

    /// of each block the number of its region, or 0 where it has none yet
    numbers: Vec<usize>,

    /// the region that blocks join
    region: usize,

    /// the blocks of the region that are to be left for their neighbours
    way: Vec<usize>,
}

impl Joining<'_> {
    /// Whether a block lies in a loop and has no region yet.
    fn is_alone(&self, block: usize) -> bool {
        self.numbers.get(block).copied().unwrap_or(1) == 0
            && self.depths.get(block).copied().unwrap_or(0) > 0
    }

    fn join(&mut self, block: usize) -> Result<(), AllocError> {
        if self.is_alone(block) {
            if let Some(number) = self.numbers.get_mut(block) {
                *number = self.region;
            }
            self.way.push(block)?;
        }
        Ok(())
    }

    fn join_neighbours(&mut self, block: usize) -> Result<(), AllocError> {
        if let Some(from) = self.blocks.get(block) {
            for to in [successor(&from.jump, 0), successor(&from.jump, 1)] {
                if let Some(to) = to {
                    self.join(to)?;
                }
            }
        }
        for from in predecessors_of(self.predecessors, block) {
            self.join(*from)?;
        }
        Ok(())
    }

    /// Each block of the region is left once.
    fn spread(&mut self, first: usize) -> Result<(), AllocError> {
        self.join(first)?;
        for _ in 0..self.blocks.len() {
            let Some(block) = self.way.pop() else {
                break;
            };
            self.join_neighbours(block)?;
        }
        Ok(())
    }
}

/// The regions, of which nothing is known yet.
fn joined(alloc: Global, mut joining: Joining<'_>) -> Result<Regions, AllocError> {
    let none = Region {
        entries: 0,
        has_calls: false,
        blocks: 0,
    };
    let mut list = vec![in alloc; none; 1]?;
    for block in 0..joining.blocks.len() {
        if joining.is_alone(block) {
            joining.region = list.len();
            joining.spread(block)?;
            list.push(none)?;
        }
    }
    Ok(Regions {
        numbers: joining.numbers,
        list,
    })
}

fn count_entry(list: &mut [Region], region: usize) {
    if let Some(region) = list.get_mut(region) {
        region.entries = region.entries.saturating_add(1);
    }
}

fn count_entries(regions: &mut Regions, block: &Block<u32>) {
    let first = successor(&block.jump, 0).map_or(0, |to| regions.number(to));
    let second = successor(&block.jump, 1).map_or(0, |to| regions.number(to));
    count_entry(regions.list.as_mut_slice(), first);
    if second != first {
        count_entry(regions.list.as_mut_slice(), second);
    }
}

/// The regions of a function, by the blocks that lead to each of its blocks and by how many loops each lies in.
pub(crate) fn find_regions(
    alloc: Global,
    blocks: &[Block<u32>],
    predecessors: &[Few<usize>],
    depths: &[u32],
) -> Result<Regions, AllocError> {
    let joining = Joining {
        blocks,
        depths,
        predecessors,
        numbers: vec![in alloc; 0usize; blocks.len()]?,
        region: 0,
        way: Vec::new(alloc),
    };
    let mut regions = joined(alloc, joining)?;
    for (number, block) in blocks.iter().enumerate() {
        let region = regions.number(number);
        if region == 0 {
            count_entries(&mut regions, block);
        } else if let Some(region) = regions.list.get_mut(region) {
            let mut lines = block.lines.as_slice().iter();
            region.blocks = region.blocks.saturating_add(1);
            region.has_calls = region.has_calls
                || lines.any(|line| matches!(line, Line::Call { .. }));
        }
    }
    Ok(regions)
}
