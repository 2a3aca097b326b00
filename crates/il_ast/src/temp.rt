//! Temporaries by number.
ghost use Rattle.std.specs.Prelude.{◌≡◌};

use std::marker::Model;

/// A temporary of a function, by its place among the function's temporaries.
#[derive(Clone, Copy, PartialEq, Eq)]
pub struct Temp {
    number: usize,
}

impl Model for Temp {
    ghost use Rattle.std.specs.Prelude.{ℕ};

    ghost Value = { ℕ };

    ghost view = { λ t. t.number };

    ghost inverse = { λ n. record { number = n } };
}

impl Temp {
    /// The temporary at a place.
    pub fn at(number: usize) -> Self
        ensures { result ≡ number }
    {
        Temp { number }
    }

    /// Its place.
    pub fn number(self) -> usize
        ensures { result ≡ self }
    {
        self.number
    }
}
