//! Moves between places.

/// A move of what the place `from` holds to the place `to`. Places have numbers.
#[derive(Clone, Copy, Debug)]
pub struct Move {
    pub to: usize,
    pub from: usize,
}
