//! Addresses of names in registers.
ghost use Rattle.std.specs.Prelude.{◌≡◌, ◌+◌, ◌-◌, ◌*◌, ◌%◌, ◌^◌, ◌<◌, nat_eq, if◌then◌else◌, [], ◌∷◌, ◌++◌, OnOk};
ghost use Rattle.operation_code.specs.Constants.{with_name, name_into};

use crate::fields::register;
use rv_isa::{Immediate, Item, Partial, Relocation};
use std::alloc::AllocError;
use vcode::place::low_part;

/// An instruction with its part of the address that lies so far beyond a name's.
pub fn with_name(instruction: Partial, global: usize, offset: Immediate) -> Item
    ensures { result ≡ with_name instruction global offset }
{
    Item::Relocated(Relocation {
        instruction,
        global,
        offset,
    })
}

/// Puts the address of a name into the register `to`.
pub fn push_address(items: &mut Vec<Item>, to: u8, global: usize) -> Result<(), AllocError>
    ensures { OnOk result (items.new.items ≡ items.old.items ++ name_into to global) }
{
    let to = register(to);
    items.push(with_name(Partial::Upper(to), global, low_part(0)))?;
    items.push(with_name(Partial::Add { rd: to, rs1: to }, global, low_part(0)))?;
    Ok(())
}
