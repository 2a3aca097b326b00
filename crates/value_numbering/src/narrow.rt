//! Registers whose low bits are another's, for stores that write no more than these.
ghost use Rattle.std.specs.Prelude.{◌≡◌, ◌<◌, IfSome};
ghost use Rattle.vcode.specs.declared.place.Operand.TheVariants.{At};
ghost use Rattle.value_numbering.specs.Reused.{extended_from, masked_from, low_of, IsNarrow};

use crate::fact::{Expression, Fact};
use crate::known::is_back;
use il_ast::Size;
use rv_isa::RegOp;
use vcode::{Operand, Operation};

/// The register of which a value is the extension, back from so many bits further left.
fn extended_from(value: &Expression, bits: u64) -> Option<u32>
    ensures { result ≡ extended_from value.now bits }
{
    match value {
        Expression::Extended(op, Operand::At(register), by) => {
            if *by == bits && is_back(*op) {
                Some(*register)
            } else {
                None
            }
        }
        _ => None,
    }
}

/// The register of which a value is the low byte.
fn masked_from(value: &Expression) -> Option<u32>
    ensures { result ≡ masked_from value.now }
{
    match value {
        Expression::Operated(
            Operation::Reg(RegOp::And),
            Operand::At(register),
            Operand::Number(mask),
        ) => { if *mask == 255 { Some(*register) } else { None } }
        _ => None,
    }
}

/// The register that has the low bits of a value, as many as a store of this size writes, if the value is known to be made of it.
fn low_of(size: Size, value: &Expression) -> Option<u32>
    ensures { result ≡ low_of size value.now }
{
    match size {
        Size::Byte => match masked_from(value) {
            Some(register) => Some(register),
            None => extended_from(value, 56),
        },
        Size::Half => extended_from(value, 48),
        Size::Word => extended_from(value, 32),
        Size::Long => None,
    }
}

/// A register of the function that a store of this size may write in the place of an operand.
pub(crate) fn narrow(facts: &[Fact], registers: u32, size: Size, value: Operand<u32>) -> Option<u32>
    ensures low { IfSome result (λ q. q < registers) }
    ensures narrow { IfSome result (λ q. IsNarrow facts.now size value q) }
{
    match value {
        Operand::At(register) => low_register(facts, registers, size, register),
        _ => None,
    }
}

fn low_register(facts: &[Fact], registers: u32, size: Size, register: u32) -> Option<u32>
    ensures low { IfSome result (λ q. q < registers) }
    ensures narrow { IfSome result (λ q. IsNarrow facts.now size (At register) q) }
{
    for fact in facts {
        if fact.register == register {
            if let Some(low) = low_of(size, &fact.value) {
                if low < registers {
                    return Some(low);
                }
            }
        }
    }
    None
}
