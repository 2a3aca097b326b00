//! How far functions grow by calls in place, and how much work that is.

/// A function comes to have fewer blocks than this, so that their numbers are small.
pub(crate) const BLOCKS: usize = 65_536;

/// A function comes to have at most so many lines more, so that the passes behind take about the time that they would have taken.
pub(crate) const LINES: usize = 2_000;

/// At most so many lines are copied where blocks of a function are cut: so calls in a long block take no longer than a pass over a long function.
pub(crate) const COPIES: usize = 200_000;

/// So many calls of a block are tried until one can be done in place. Where ticks don't pay for one, they don't for its like.
pub(crate) const TRIES: usize = 8;
