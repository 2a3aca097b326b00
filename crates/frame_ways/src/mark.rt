//! Code with marks.
use vcode::{Code, Location};

/// Where a block runs.
#[derive(Clone, Copy, PartialEq, Eq)]
pub enum Mark {
    /// without a frame
    Bare,
    /// where the frame begins
    Begin,
    /// in the frame
    Framed,
}

/// A function's code in parts, and the mark of each.
#[derive(Drop)]
pub struct Marked {
    pub code: Code<Location>,
    pub marks: Vec<Mark>,
}
