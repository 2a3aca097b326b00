//! Which parts a function's code is made of.
use crate::mark::Mark;
use il_ast::Seq;

/// A part of the code: a copy of a block, or where the frame begins for it.
#[derive(Clone, Copy)]
pub struct Part {
    pub block: usize,
    pub mark: Mark,
}

/// The parts in the order in which they stand, and for each block the numbers of those that stand for it.
#[derive(Drop)]
pub struct Plan {
    pub parts: Seq<Part>,
    /// the part that bare ones lead to: a copy of the block, or where the frame begins for it
    pub front: Seq<usize>,
    /// the part that begins and framed ones lead to
    pub behind: Seq<usize>,
}
