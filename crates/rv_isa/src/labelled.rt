//! Labelled code: instructions whose jumps name labels and whose addresses name globals, before places are known.

ghost use Rattle.std.specs.Prelude.{◌≡◌};
ghost use Rattle.rv_isa.specs.Prelude.{IsLabelled};

use crate::instruction::{BranchOp, Instr};
use crate::ranges::Register;
use crate::relocation::Relocation;
use std::marker::Model;

/// An item of labelled code. The items of a function stand one after another; laying them out may use x31 for long jumps.
#[derive(Clone, Copy)]
pub enum Item {
    /// An instruction with known operands.
    Plain(Instr),
    /// A place that branches and jumps of the function can name, no number twice.
    Label(usize),
    /// A branch to a label, of at most three instructions.
    Branch {
        op: BranchOp,
        rs1: Register,
        rs2: Register,
        label: usize,
    },
    /// A jump to a label, of one or two instructions.
    Goto(usize),
    /// A call of a global, of one or two instructions: a jump to its address, with that of the next item in x1.
    Call(usize),
    /// An instruction with a part of the address of a global.
    Relocated(Relocation),
}

/// The labelled code of a function.
///
/// Its labels are numbers below a count, and none stands in the code twice. The longest form of the
/// code has a word at least and fewer than 2^28.
#[derive(Drop)]
pub struct LabelledCode {
    items: Vec<Item>,
    labels: usize,
}

impl Model for LabelledCode {
    ghost use Rattle.rv_isa.specs.Labels.{LabelledItems, IsLabelled};

    ghost Value = { LabelledItems };

    ghost view = { λ c. record { items = c.items.items; labels = c.labels } };

    ghost invariant = { λ c. IsLabelled (record { items = c.items.items; labels = c.labels }) };
}

impl LabelledCode {
    /// The code of these items, whose labels are numbers below `labels`.
    pub fn new(items: Vec<Item>, labels: usize) -> LabelledCode
        requires { IsLabelled (record { items = items.items; labels = labels }) }
        ensures { result ≡ record { items = items.items; labels = labels } }
    {
        LabelledCode { items, labels }
    }

    /// The items, in order.
    pub fn items(&self) -> &[Item]
        ensures value { result.now ≡ self.now.items }
        ensures labelled { IsLabelled self.now }
    {
        self.items.as_slice()
    }

    /// The number below which all labels are.
    pub fn labels(&self) -> usize
        ensures value { result ≡ self.now.labels }
        ensures labelled { IsLabelled self.now }
    {
        self.labels
    }
}
