//! How fast sets of bits and live registers are.
use crate::graphs::{REGISTERS, Shape, graph_of};
use bitset::BitSet;
use cfg_live::live::live_in;
use std::alloc::{AllocError, Global};

/// Joins sets of numbers below a length, and counts the joins that let one grow.
pub fn joins(alloc: Global, length: usize) -> Result<usize, AllocError> {
    let mut set = BitSet::new(alloc, length)?;
    let mut other = BitSet::new(alloc, length)?;
    let mut grew = 0usize;
    for i in 0..1000usize {
        if i < other.len() {
            other.insert(i);
        }
        if set.len() == other.len() && set.union_into(&other) {
            grew = grew.saturating_add(1);
        }
    }
    Ok(grew)
}

/// How many registers are live at the first point of the text.
pub fn live_at_first(alloc: Global, shape: Shape, blocks: u32) -> Result<usize, AllocError> {
    let graph = graph_of(alloc, shape, blocks)?;
    let live = live_in(alloc, &graph, REGISTERS)?;
    Ok(
        (0..REGISTERS)
            .filter(|register| live.holds(0, *register))
            .count(),
    )
}
