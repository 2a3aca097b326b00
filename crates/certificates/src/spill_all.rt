//! The simplest strategy.
ghost use Rattle.std.specs.Prelude.{◌≡◌, IfOk, IfSome};
ghost use Rattle.certificates.specs.Listed.{slots, slotted};

use crate::certificate::Certificate;
use crate::list::certificate_of;
use crate::strategy::Strategy;
use cfg_live::Live;
use std::alloc::{AllocError, Global};
use vcode::{Location, VFunc};

/// Answers slot i for register i, everywhere; none where memory is refused.
#[derive(Drop)]
pub struct SpillAll {
    alloc: Global,
}

impl SpillAll {
    /// The strategy, with the memory that it is to take.
    pub fn new(alloc: Global) -> SpillAll {
        SpillAll { alloc }
    }
}

/// Slot i for each i below `registers`.
pub fn slots(alloc: Global, registers: u32) -> Result<Vec<Location>, AllocError>
    ensures { IfOk result (λ v. v.items ≡ slots registers) }
{
    let mut list = Vec::with_capacity(alloc, registers as usize)?;
    for register in 0..registers {
        list.push(Location::Slot(register))?;
    }
    Ok(list)
}

/// The certificate that has register i in slot i, everywhere; where a block starts it names the live registers alone.
///
/// # Errors
///
/// Only where memory was refused.
pub fn slotted(alloc: Global, function: &VFunc, live: &Live) -> Result<Certificate, AllocError>
    ensures { IfOk result (λ c. c ≡ slotted function.now.code function.now.registers live.now) }
{
    let list = slots(alloc, function.registers)?;
    certificate_of(alloc, function, live, &list)
}

impl Strategy for SpillAll {
    fn choose(&mut self, function: &VFunc, live: &Live) -> Option<Certificate>
        ensures { IfSome result (λ c. c ≡ slotted function.now.code function.now.registers live.now) }
    {
        slotted(self.alloc, function, live).ok()
    }
}
