//! What a register is known to hold.
ghost use Rattle.std.specs.Prelude.{◌≡◌};
ghost use Rattle.vcode.specs.Prelude.{distance};
ghost use Rattle.value_numbering.specs.Known.{computed, names, reads, asks_memory, changes_memory, spares, stays};

use cfg_live::uses::line_writes;
use rv_isa::{LoadOp, RegOp};
use vcode::{Address, Line, Operand, Operation};

/// What a line computes.
#[derive(Clone, Copy)]
pub(crate) enum Expression {
    /// what the operand does
    Same(Operand<u32>),
    /// what an operation gives
    Operated(Operation, Operand<u32>, Operand<u32>),
    /// what the operand does, shifted to the left by so many bits and back by the operation
    Extended(RegOp, Operand<u32>, u64),
    /// what memory has, so many bytes beyond what the operand holds
    Loaded(LoadOp, Operand<u32>, u64),
    /// the first operand, and so many times the second one, and a number more
    Linear(Operand<u32>, Operand<u32>, u64, u64),
    /// what the operand does, if this number gives the same added to it as a word and as a long
    Growing(Operand<u32>, u64),
}

/// A register holds what an expression gives.
#[derive(Clone, Copy)]
pub(crate) struct Fact {
    pub(crate) register: u32,
    pub(crate) value: Expression,
}

/// How far from its base an address is, modulo 2^64.
pub(crate) fn distance(at: &Address<u32>) -> u64
    ensures { result ≡ distance at.now }
{
    i64::from(at.offset.value).cast_unsigned()
}

/// What a line computes, and where to.
pub(crate) fn computed(line: &Line<u32>) -> Option<Fact>
    ensures { result ≡ computed line.now }
{
    match line {
        Line::Set { to, value } => Some(Fact {
            register: *to,
            value: Expression::Same(*value),
        }),
        Line::Operate {
            to,
            operation,
            left,
            right,
        } => Some(Fact {
            register: *to,
            value: Expression::Operated(*operation, *left, *right),
        }),
        Line::Load { to, op, at } => Some(Fact {
            register: *to,
            value: Expression::Loaded(*op, at.base, distance(at)),
        }),
        _ => None,
    }
}

pub(crate) fn names(register: u32, operand: Operand<u32>) -> bool
    ensures { result ≡ names register operand }
{
    match operand {
        Operand::At(place) => place == register,
        _ => false,
    }
}

/// Whether the expression reads the register.
pub(crate) fn reads(register: u32, value: Expression) -> bool
    ensures { result ≡ reads register value }
{
    match value {
        Expression::Same(operand) => names(register, operand),
        Expression::Operated(_, left, right) => names(register, left) || names(register, right),
        Expression::Extended(_, operand, _) => names(register, operand),
        Expression::Loaded(_, base, _) => names(register, base),
        Expression::Linear(base, index, _, _) => names(register, base) || names(register, index),
        Expression::Growing(operand, _) => names(register, operand),
    }
}

fn asks_memory(value: Expression) -> bool
    ensures { result ≡ asks_memory value }
{
    match value {
        Expression::Operated(Operation::Compare(_, _), _, _) => true,
        Expression::Loaded(_, _, _) => true,
        _ => false,
    }
}

fn changes_memory(line: &Line<u32>) -> bool
    ensures { result ≡ changes_memory line.now }
{
    match line {
        Line::Store { .. } | Line::Alloc { .. } | Line::Blit { .. } | Line::Call { .. } => true,
        _ => false,
    }
}

fn spares(written: Option<u32>, fact: Fact) -> bool
    ensures { result ≡ spares written fact }
{
    match written {
        None => true,
        Some(register) => !(fact.register == register || reads(register, fact.value)),
    }
}

/// Whether a fact stays true over a line.
pub(crate) fn stays(line: &Line<u32>, fact: Fact) -> bool
    ensures { result ≡ stays line.now fact }
{
    !(changes_memory(line) && asks_memory(fact.value)) && spares(line_writes(line), fact)
}
