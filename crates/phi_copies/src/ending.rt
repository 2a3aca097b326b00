//! What stands at the end of a basic block where there are no phis.
use il_ast::{Dest, Seq, Val};

/// A copy of an operand, read in a place of the destination's class, to a temporary.
#[derive(Clone, Copy)]
pub struct Assignment {
    pub to: Dest,
    pub value: Val,
}

/// Where a block goes. Blocks are named by their place in the function.
#[derive(Clone, Copy)]
pub enum Leave {
    Goto(usize),
    /// to `nonzero` where the word is not 0, else to `otherwise`
    Branch {
        on: Val,
        nonzero: usize,
        otherwise: usize,
    },
    /// from the function, with a value or without
    Return(Option<Val>),
    /// ends the run
    Halt,
}

/// The end of a block: it begins a turn of the source if `turn`, and spends weight; then it does the copies, one after another; then it leaves.
#[derive(Drop)]
pub struct Ending {
    pub turn: bool,
    pub weight: usize,
    pub copies: Seq<Assignment>,
    pub leave: Leave,
}
