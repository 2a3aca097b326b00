//! Instructions and jumps (QBE IL, "Instructions" and "Jumps").
use crate::few::Few;
use crate::label::Label;
use crate::operand::{Arg, Dest, Val};
use crate::operation::{Alignment, BinaryOp, Size, UnaryOp};

/// An item with the number of the line that it begins on, from 1.
#[derive(Drop)]
pub struct Lined<T> {
    pub line: usize,
    pub item: T,
}

/// An instruction.
#[derive(Drop)]
pub enum Inst {
    /// `to = op value`
    Unary {
        to: Dest,
        op: UnaryOp,
        value: Val,
    },
    /// `to = op left, right`
    Binary {
        to: Dest,
        op: BinaryOp,
        left: Val,
        right: Val,
    },
    /// `to = alloc size`: a fresh block of that many bytes
    Alloc {
        to: Dest,
        alignment: Alignment,
        size: u64,
    },
    /// `store value, at`
    Store {
        size: Size,
        value: Val,
        at: Val,
    },
    /// `blit from, to, count`: copies that many bytes
    Blit {
        from: Val,
        to: Val,
        count: u64,
    },
    /// `[to =] call callee(arguments)`
    Call {
        to: Option<Dest>,
        callee: Val,
        args: Few<Arg>,
    },
}

/// What ends a block.
#[derive(Clone, Copy)]
pub enum Jump {
    /// `jmp`
    Goto(Label),
    /// `jnz`: to `nonzero` where the word is not 0, else to `otherwise`
    Branch {
        on: Val,
        nonzero: Label,
        otherwise: Label,
    },
    /// `ret`, with a value or without
    Return(Option<Val>),
    /// `hlt`
    Halt,
}
