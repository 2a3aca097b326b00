//! Blocks, and the code of a function.
use crate::line::{Jump, Line};
use crate::place::Destination;
use il_ast::{Class, Seq};

/// A basic block.
#[derive(Drop)]
pub struct Block<P> {
    pub lines: Seq<Line<P>>,
    pub jump: Jump<P>,
}

/// The code of a function over places P. It begins with the first block, its arguments in the places of its parameters.
#[derive(Drop)]
pub struct Code<P> {
    pub result: Option<Class>,
    pub params: Seq<Destination<P>>,
    pub blocks: Seq<Block<P>>,
}
