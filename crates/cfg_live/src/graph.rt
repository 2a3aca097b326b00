//! The graph of a function's points.
use crate::uses::Uses;
use il_ast::{Few, Seq};

/// The points of a function, numbered from 0 in the order of its text: its lines but for ticks, and its jumps.
#[derive(Drop)]
pub struct Graph {
    /// what each point reads and writes
    pub uses: Seq<Uses>,
    /// for each point, the points that may come next
    pub nexts: Seq<Few<usize>>,
}
