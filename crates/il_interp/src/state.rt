//! Where a run stands.
ghost use Rattle.std.specs.Prelude.{◌≡◌, [], ◌∷◌, ◌++◌, List, OnOk, OnErr};
ghost use Rattle.il_interp.specs.Popped.{IsPopped};

use crate::slots::Slots;
use il_ast::{Dest, Seq};
use il_mem::memory::BlockMemory;
use std::alloc::{AllocError, Global};
use std::marker::Model;

/// An activation of a function: the function by its number, the room that its calls have, where it
/// stands, what it holds, and where the result goes of the call that it waits for.
#[derive(Drop)]
pub struct Frame {
    pub function: usize,
    /// in bytes of the stack
    pub room: u32,
    /// the block by its place
    pub block: usize,
    /// the next instruction in it
    pub next: usize,
    pub temps: Slots,
    /// the blocks of memory that die at its return
    pub owned: Seq<u128>,
    pub waits: Option<Dest>,
}

/// Where a run stands: the activation that has its turn, those that wait, the memory and the output.
#[derive(Drop)]
pub struct State {
    pub frame: Frame,
    pub below: Pile,
    pub memory: BlockMemory,
    pub output: Output,
}

/// Activations that wait, the latest first.
#[derive(Drop)]
pub struct Pile {
    frames: Vec<Frame>,
}

impl Model for Pile {
    ghost use Rattle.std.specs.Prelude.{List, reverse};
    ghost use Rattle.il_interp.specs.declared.state.Frame.{Frame as FrameOf};

    ghost Value = { List FrameOf };

    ghost view = { λ p. reverse p.frames.items };
}

impl Pile {
    /// No activation.
    pub fn new(alloc: Global) -> Self
        ensures { result ≡ [] }
    {
        Pile {
            frames: Vec::new(alloc),
        }
    }

    /// Lays an activation on top.
    #[tactic(auto, using(crate::proofs::PileLemmas::pushed))]
    pub fn push(&mut self, frame: Frame) -> Result<(), AllocError>
        ensures { OnOk result (self.new ≡ frame ∷ self.old) }
    {
        self.frames.push(frame)?;
        Ok(())
    }

    /// How many activations there are.
    pub fn len(&self) -> usize {
        self.frames.len()
    }

    /// The activation with this number, counted from 0 for the latest.
    pub fn get(&self, number: usize) -> Option<&Frame> {
        let count = self.frames.len();
        if number < count {
            self.frames.get(count - 1 - number)
        } else {
            None
        }
    }

    /// Takes the one on top.
    #[tactic(auto, using(crate::proofs::PileLemmas::popped))]
    pub fn pop(&mut self) -> Option<Frame>
        ensures { IsPopped self.old result self.new }
    {
        self.frames.pop()
    }
}

/// The bytes put out.
#[derive(Drop)]
pub struct Output {
    bytes: Vec<u8>,
}

impl Model for Output {
    ghost use Rattle.std.specs.Prelude.{List, ℕ};

    ghost Value = { List ℕ };

    ghost view = { λ o. o.bytes.items };
}

impl Output {
    /// No bytes.
    pub fn new(alloc: Global) -> Self
        ensures { result ≡ [] }
    {
        Output {
            bytes: Vec::new(alloc),
        }
    }

    /// Puts out bytes after those that are there.
    pub fn append(&mut self, bytes: &[u8]) -> Result<(), AllocError>
        ensures { OnOk result (self.new ≡ self.old ++ bytes.now) }
    {
        self.bytes.extend_from_slice(bytes)
    }

    /// The bytes that are there.
    pub fn bytes(&self) -> &[u8]
        ensures { result.now ≡ self.now }
    {
        self.bytes.as_slice()
    }

    /// Forgets them.
    pub fn clear(&mut self)
        ensures { self.new ≡ [] }
    {
        self.bytes.clear();
    }

    /// All bytes that were put out.
    pub fn into_bytes(self) -> Vec<u8>
        ensures { result.items ≡ self }
    {
        self.bytes
    }
}
