//! Positions in the text of a function.

/// The position right before a point.
pub(crate) fn right_before(point: usize) -> usize {
    point.saturating_mul(2)
}

/// The position right after a point, between it and the next one.
pub(crate) fn right_after(point: usize) -> usize {
    point.saturating_mul(2).saturating_add(1)
}

/// The positions from `start` to `end`, both with it.
#[derive(Clone, Copy, Default)]
pub(crate) struct Range {
    pub(crate) start: usize,
    pub(crate) end: usize,
}
