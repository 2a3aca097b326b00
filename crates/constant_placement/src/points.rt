//! The points of virtual code, as guesses count them.
use vcode::{Block, Line};

/// The point behind a line.
pub(crate) fn behind_line(point: usize, line: &Line<u32>) -> usize {
    match line {
        Line::Tick { .. } => point,
        _ => point.saturating_add(1),
    }
}

/// The first point behind a block that begins at this one.
pub(crate) fn behind_block(first: usize, block: &Block<u32>) -> usize {
    let lines = block.lines.as_slice().iter();
    lines
        .fold(first, |point, line| behind_line(point, line))
        .saturating_add(1)
}
