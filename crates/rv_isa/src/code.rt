//! Laid-out code: words, and where in them the addresses of globals are filled in.

ghost use Rattle.std.specs.Prelude.{◌≡◌};
ghost use Rattle.rv_isa.specs.Prelude.{IsCode};

use crate::relocation::Filling;
use std::marker::Model;

/// A word that waits for the address of a global.
#[derive(Clone, Copy)]
pub struct Hole {
    /// The number of the word.
    pub word: usize,
    /// What it becomes.
    pub filling: Filling,
}

/// The words of a function.
///
/// There is one at least. The holes lie in order and apart, each at one of the function's words.
#[derive(Drop)]
pub struct MachineCode {
    words: Vec<u32>,
    holes: Vec<Hole>,
}

impl Model for MachineCode {
    ghost use Rattle.rv_isa.specs.Words.{Words, IsCode};

    ghost Value = { Words };

    ghost view = { λ c. record { words = c.words.items; holes = c.holes.items } };

    ghost invariant = { λ c. IsCode (record { words = c.words.items; holes = c.holes.items }) };
}

impl MachineCode {
    /// The code of these words and holes.
    pub fn new(words: Vec<u32>, holes: Vec<Hole>) -> MachineCode
        requires { IsCode (record { words = words.items; holes = holes.items }) }
        ensures { result ≡ record { words = words.items; holes = holes.items } }
    {
        MachineCode { words, holes }
    }

    /// The words, in order.
    pub fn words(&self) -> &[u32]
        ensures value { result.now ≡ self.now.words }
        ensures code { IsCode self.now }
    {
        self.words.as_slice()
    }

    /// The holes, in order.
    pub fn holes(&self) -> &[Hole]
        ensures value { result.now ≡ self.now.holes }
        ensures code { IsCode self.now }
    {
        self.holes.as_slice()
    }
}
