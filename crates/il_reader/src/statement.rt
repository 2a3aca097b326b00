//! What a line of a block before its jump is.
use il_ast::{Alignment, BinaryOp, Inst, Lined, Phi, UnaryOp};

/// What the word behind a destination and `=` and a class asks for.
#[derive(Clone, Copy)]
pub enum Operation {
    /// `phi`
    Phi,
    /// `call`
    Call,
    /// `alloc4`, `alloc8`, `alloc16`
    Alloc(Alignment),
    Unary(UnaryOp),
    Binary(BinaryOp),
}

/// A line of a block before its jump.
#[derive(Drop)]
pub enum Statement {
    Phi(Phi),
    Inst(Lined<Inst>),
}
