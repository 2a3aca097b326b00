//! Which places lines and jumps read.
use crate::independent::operand;
use vcode::{Jump, Line, Location, Operand};

fn is_in(value: &Operand<Location>, place: Location) -> bool {
    !operand(place, value)
}

/// Whether a line that isn't a call reads the place.
pub(crate) fn line_reads(line: &Line<Location>, place: Location) -> bool {
    match line {
        Line::Set { value, .. } => is_in(value, place),
        Line::Operate { left, right, .. } => is_in(left, place) || is_in(right, place),
        Line::Load { at, .. } => is_in(&at.base, place),
        Line::Store { value, at, .. } => is_in(value, place) || is_in(&at.base, place),
        Line::Blit { from, to, .. } => is_in(from, place) || is_in(to, place),
        Line::Tick { .. } | Line::Alloc { .. } | Line::Call { .. } => false,
    }
}

/// Whether the jump reads the place.
pub(crate) fn jump_reads(jump: &Jump<Location>, place: Location) -> bool {
    match jump {
        Jump::Branch { on, .. } => is_in(&on.left, place) || is_in(&on.right, place),
        Jump::Return(Some(returned)) => is_in(&returned.value, place),
        Jump::Goto(_) | Jump::Return(None) | Jump::Halt => false,
    }
}
