//! Operands that read copies.
ghost use Rattle.propagation.specs.Copied.{read_by};

use crate::copies::known::KnownCopies;
use vcode::{Operand, Replace};

impl Replace for KnownCopies {
    ghost replacing = { λ k. read_by k.copies.items };

    fn operand(&self, from: &Operand<u32>) -> Operand<u32> {
        match from {
            Operand::At(register) => Operand::At(self.copy_of(*register)),
            other => *other,
        }
    }
}
