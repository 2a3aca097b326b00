//! Operations on two registers.
ghost use Rattle.std.specs.Prelude.{◌≡◌, ◌++◌, OnOk};
ghost use Rattle.operation_code.specs.Immediates.{operation_items};

use crate::compare::push_compare;
use crate::fields::register;
use rv_isa::{Instr, Item};
use std::alloc::AllocError;
use vcode::Operation;

/// Puts the code of an operation on two registers at the end.
pub fn push_operation(
    items: &mut Vec<Item>,
    operation: &Operation,
    to: u8,
    left: u8,
    right: u8,
) -> Result<(), AllocError>
    ensures { OnOk result (items.new.items ≡ items.old.items ++ operation_items operation.now to left right) }
{
    match operation {
        Operation::Reg(op) => items.push(Item::Plain(Instr::Reg {
            op: *op,
            rd: register(to),
            rs1: register(left),
            rs2: register(right),
        }))?,
        Operation::RegW(op) => items.push(Item::Plain(Instr::RegW {
            op: *op,
            rd: register(to),
            rs1: register(left),
            rs2: register(right),
        }))?,
        Operation::Compare(condition, _) => push_compare(items, *condition, to, left, right)?,
    }
    Ok(())
}
