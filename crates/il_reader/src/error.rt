//! Refusals.
use thiserror::Error;

/// Why a text was not read. A text outside the grammar is shown as `E1` and a line.
#[derive(Clone, Copy, Debug, Error)]
pub enum ReadError {
    /// The text is not in the grammar. The line is from 1 to 1 more than its bytes 10.
    #[error("E1 line {line}")]
    Syntax { line: usize },
    /// Memory was refused.
    #[error("memory")]
    Memory,
}
