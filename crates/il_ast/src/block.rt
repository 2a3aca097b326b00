//! Basic blocks (QBE IL, "Blocks" and "Phi").
use crate::few::Few;
use crate::instruction::{Inst, Jump, Lined};
use crate::label::Label;
use crate::list::Seq;
use crate::operand::{Dest, Val};

/// The value that a phi takes where its block is entered from the block of this label.
#[derive(Clone, Copy)]
pub struct PhiArg {
    pub from: Label,
    pub value: Val,
}

impl Default for PhiArg {
    fn default() -> Self {
        PhiArg {
            from: Label::at(0),
            value: Val::Int(0),
        }
    }
}

/// A phi: at the entry of its block the temporary takes the value of the block come from.
#[derive(Drop)]
pub struct Phi {
    pub line: usize,
    pub to: Dest,
    pub args: Few<PhiArg>,
}

/// A basic block. A block that is written without a jump has one to the next block of the text; the
/// last block of a function may lack one, which is against a rule and means nothing.
#[derive(Drop)]
pub struct Block {
    /// the line of the label
    pub line: usize,
    pub label: Label,
    pub phis: Seq<Phi>,
    pub insts: Seq<Lined<Inst>>,
    pub jump: Option<Lined<Jump>>,
}
