//! What is known of a register.
use vcode::{Comparison, Operand};

/// What a register holds.
#[derive(Clone, Copy)]
pub enum Fact {
    /// what the operand does
    Same(Operand<u32>),
    /// what the operand does and this number give as a sum
    Sum(Operand<u32>, u64),
    /// what the comparison gives
    Test(Comparison<u32>),
}

/// A fact, and the time since when it is known.
#[derive(Clone, Copy)]
pub struct DatedFact {
    pub fact: Fact,
    pub since: u128,
}
