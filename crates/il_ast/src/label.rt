//! Labels by number.
ghost use Rattle.std.specs.Prelude.{◌≡◌};

use std::marker::Model;

/// A label of a function, by its place among the labels that the function names.
#[derive(Clone, Copy, PartialEq, Eq)]
pub struct Label {
    number: usize,
}

impl Model for Label {
    ghost use Rattle.std.specs.Prelude.{ℕ};

    ghost Value = { ℕ };

    ghost view = { λ l. l.number };

    ghost inverse = { λ n. record { number = n } };
}

impl Label {
    /// The label at a place.
    pub fn at(number: usize) -> Self
        ensures { result ≡ number }
    {
        Label { number }
    }

    /// Its place.
    pub fn number(self) -> usize
        ensures { result ≡ self }
    {
        self.number
    }
}
