//! How far the machine may be behind the source.

/// At most so many turns of the source begin between two instructions.
pub const TURN_BOUND: u64 = 40_000;
