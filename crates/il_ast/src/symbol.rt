//! Global names by number.
ghost use Rattle.std.specs.Prelude.{◌≡◌};

use std::marker::Model;

/// A global name of a text, by its place among the global names that the text mentions.
#[derive(Clone, Copy, Debug, PartialEq, Eq)]
pub struct Symbol {
    number: usize,
}

impl Model for Symbol {
    ghost use Rattle.std.specs.Prelude.{ℕ};

    ghost Value = { ℕ };

    ghost view = { λ g. g.number };

    ghost inverse = { λ n. record { number = n } };
}

impl Symbol {
    /// The global name at a place.
    pub fn at(number: usize) -> Self
        ensures { result ≡ number }
    {
        Symbol { number }
    }

    /// Its place.
    pub fn number(self) -> usize
        ensures { result ≡ self }
    {
        self.number
    }
}
