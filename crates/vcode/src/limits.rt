//! What intermediate codes may have at most.

/// A function has fewer virtual registers than this, and fewer slots, so that each offset in its frame fits 32 bits.
pub const PLACES: u32 = 65_536;
