//! The registers that lines and jumps read, for guesses: found without taking memory, and named in no contract.
use vcode::{Argument, Jump, Line, Operand};

/// What a point reads: up to two operands, and what a call passes besides.
#[derive(Clone, Copy)]
pub struct Reads<'a> {
    pub first: Option<u32>,
    pub second: Option<u32>,
    pub args: &'a [Argument<u32>],
}

/// The register that an operand reads.
pub fn register_of(operand: &Operand<u32>) -> Option<u32> {
    match operand {
        Operand::At(register) => Some(*register),
        _ => None,
    }
}

/// Up to two registers, and no arguments.
fn both(first: Option<u32>, second: Option<u32>) -> Reads<'static> {
    Reads {
        first,
        second,
        args: &[],
    }
}

/// What a line reads.
pub fn line_reads(line: &Line<u32>) -> Reads {
    match line {
        Line::Tick { .. } | Line::Alloc { .. } => both(None, None),
        Line::Set { value, .. } => both(register_of(value), None),
        Line::Operate { left, right, .. } => both(register_of(left), register_of(right)),
        Line::Load { at, .. } => both(register_of(&at.base), None),
        Line::Store { value, at, .. } => both(register_of(value), register_of(&at.base)),
        Line::Blit { from, to, .. } => both(register_of(from), register_of(to)),
        Line::Call { callee, args, .. } => Reads {
            first: register_of(callee),
            second: None,
            args: args.as_slice(),
        },
    }
}

/// What a jump reads.
pub fn jump_reads(jump: &Jump<u32>) -> Reads {
    match jump {
        Jump::Branch { on, .. } => both(register_of(&on.left), register_of(&on.right)),
        Jump::Return(Some(returned)) => both(register_of(&returned.value), None),
        _ => both(None, None),
    }
}
