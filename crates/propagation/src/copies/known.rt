//! The copies that are known at a place of a block.
ghost use Rattle.std.specs.Prelude.{◌≡◌, [], filter, OnOk};
ghost use Rattle.propagation.specs.Copied.{copy_of, survives, made_by, with_copy, after};

use cfg_live::uses::line_writes;
use std::alloc::{AllocError, Global};
use vcode::{Line, Operand};

/// A register that holds the same as another, its source.
#[derive(Clone, Copy)]
pub struct KnownCopy {
    pub source: u32,
    pub copy: u32,
}

/// The copies that are known at a place of a block, the oldest first.
#[derive(Drop)]
pub(crate) struct KnownCopies {
    copies: Vec<KnownCopy>,
}

/// The first copy of the register, or itself where none is known.
fn copy_of(known: &[KnownCopy], register: u32) -> u32
    ensures { result ≡ copy_of known.now register }
{
    for pair in known {
        if pair.source == register {
            return pair.copy;
        }
    }
    register
}

/// The copies that a write to the register leaves.
fn forget(known: &mut Vec<KnownCopy>, register: u32)
    ensures { known.new.items ≡ filter (survives register) known.old.items }
{
    known.retain(|pair| pair.source != register && pair.copy != register);
}

/// The copy that a line makes.
fn made_by(line: &Line<u32>) -> Option<KnownCopy>
    ensures { result ≡ made_by line.now }
{
    match line {
        Line::Set {
            to,
            value: Operand::At(from),
        } => {
            if *to == *from {
                None
            } else {
                Some(KnownCopy {
                    source: *from,
                    copy: *to,
                })
            }
        }
        _ => None,
    }
}

/// One copy more, if few are known.
fn note(known: &mut Vec<KnownCopy>, made: Option<KnownCopy>) -> Result<(), AllocError>
    ensures { OnOk result (known.new.items ≡ with_copy made known.old.items) }
{
    if let Some(pair) = made {
        if known.len() < 16 {
            known.push(pair)?;
        }
    }
    Ok(())
}

impl KnownCopies {
    /// Nothing is known.
    pub(crate) fn nothing(alloc: Global) -> KnownCopies
        ensures { result.copies.items ≡ [] }
    {
        KnownCopies {
            copies: Vec::new(alloc),
        }
    }

    /// The first copy of the register, or itself where none is known.
    pub(crate) fn copy_of(&self, register: u32) -> u32
        ensures { result ≡ copy_of self.now.copies.items register }
    {
        copy_of(self.copies.as_slice(), register)
    }

    /// Takes what is known before a line to what is known after it.
    ///
    /// # Errors
    ///
    /// Only where memory was refused.
    pub(crate) fn pass(&mut self, line: &Line<u32>) -> Result<(), AllocError>
        ensures { OnOk result (self.new.copies.items ≡ after line.now self.old.copies.items) }
    {
        if let Some(register) = line_writes(line) {
            forget(&mut self.copies, register);
        }
        note(&mut self.copies, made_by(line))
    }
}
