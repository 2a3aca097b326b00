//! Operands of lines: numbers, eight bytes of the frame, addresses.
ghost use Rattle.std.specs.Prelude.{◌≡◌, ◌+◌, ◌-◌, ◌*◌, ◌%◌, ◌^◌, ◌<◌, nat_eq, if◌then◌else◌, [], ◌∷◌, ◌++◌, OnOk};
ghost use Rattle.operation_code.specs.Constants.{constant, word, add_low, extend};
ghost use Rattle.abi_frames.specs.Emission.{load_slot, store_slot, address_at, slot_offset, into, fetch, source, word_into, word_fetch, word_source, target, deliver};

use crate::layout::Layout;
use operation_code::constant::{push_constant, upper_part, word};
use operation_code::fields::{add, add_immediate, extend_word, load, load_upper, register, store};
use operation_code::name::push_address;
use rv_isa::{Item, abi};
use std::alloc::AllocError;
use vcode::{Location, Operand};

/// Loads the eight bytes at an offset from the stack pointer.
pub(crate) fn push_load(items: &mut Vec<Item>, to: u8, offset: u64) -> Result<(), AllocError>
    requires { offset < 2 ^ 40 }
    ensures { OnOk result (items.new.items ≡ items.old.items ++ load_slot to offset) }
{
    if offset < 0x800 {
        items.push(load(to, abi::STACK_POINTER, offset))?;
    } else {
        items.push(load_upper(to, upper_part(offset)))?;
        items.push(add(to, to, abi::STACK_POINTER))?;
        items.push(load(to, to, offset))?;
    }
    Ok(())
}

/// Puts the address at an offset from the stack pointer into a register.
pub(crate) fn push_address_at(items: &mut Vec<Item>, to: u8, offset: u64) -> Result<(), AllocError>
    requires { offset < 2 ^ 40 }
    ensures { OnOk result (items.new.items ≡ items.old.items ++ address_at to offset) }
{
    if offset < 0x800 {
        items.push(add_immediate(to, abi::STACK_POINTER, offset))?;
    } else {
        items.push(load_upper(to, upper_part(offset)))?;
        items.push(add(to, to, abi::STACK_POINTER))?;
        items.push(add_immediate(to, to, offset))?;
    }
    Ok(())
}

/// Stores eight bytes at an offset from the stack pointer.
pub(crate) fn push_store(items: &mut Vec<Item>, value: u8, offset: u64) -> Result<(), AllocError>
    requires { offset < 2 ^ 40 }
    ensures { OnOk result (items.new.items ≡ items.old.items ++ store_slot value offset) }
{
    if offset < 0x800 {
        items.push(store(value, abi::STACK_POINTER, offset))?;
    } else {
        items.push(load_upper(abi::SECOND_SCRATCH, upper_part(offset)))?;
        items.push(add(abi::SECOND_SCRATCH, abi::SECOND_SCRATCH, abi::STACK_POINTER))?;
        items.push(store(value, abi::SECOND_SCRATCH, offset))?;
    }
    Ok(())
}

/// The offset of a slot.
fn offset_of(layout: &Layout, slot: u32) -> u64
    ensures value { result ≡ slot_offset layout.now slot }
    ensures near { result < 2 ^ 40 }
{
    u64::from(layout.slots) + 8 * u64::from(slot)
}

fn push_slot(items: &mut Vec<Item>, layout: &Layout, to: u8, slot: u32) -> Result<(), AllocError>
    ensures { OnOk result (items.new.items ≡ items.old.items ++ load_slot to (slot_offset layout.now slot)) }
{
    let offset = offset_of(layout, slot);
    push_load(items, to, offset)
}

/// Stores a register into a slot.
pub(crate) fn push_into_slot(
    items: &mut Vec<Item>,
    layout: &Layout,
    value: u8,
    slot: u32,
) -> Result<(), AllocError>
    ensures { OnOk result (items.new.items ≡ items.old.items ++ store_slot value (slot_offset layout.now slot)) }
{
    let offset = offset_of(layout, slot);
    push_store(items, value, offset)
}

/// Copies a register, unless it is the same.
fn push_move(items: &mut Vec<Item>, to: u8, from: u8) -> Result<(), AllocError>
    ensures { OnOk result (items.new.items ≡ items.old.items ++ (if nat_eq to from then [] else add_low to from 0 ∷ [])) }
{
    if to != from {
        items.push(add_immediate(to, from, 0))?;
    }
    Ok(())
}

/// Has a number in a register: 0 in x0.
fn push_number(items: &mut Vec<Item>, to: u8, number: u64) -> Result<(), AllocError>
    ensures { OnOk result (items.new.items ≡ items.old.items ++ (if nat_eq number 0 then [] else constant to number)) }
{
    if number != 0 {
        push_constant(items, to, number)?;
    }
    Ok(())
}

/// Puts an operand into the register `to`.
pub(crate) fn push_operand(
    items: &mut Vec<Item>,
    layout: &Layout,
    to: u8,
    operand: &Operand<Location>,
) -> Result<(), AllocError>
    ensures { OnOk result (items.new.items ≡ items.old.items ++ into layout.now to operand.now) }
{
    match operand {
        Operand::At(Location::Register(number)) => push_move(items, to, *number)?,
        Operand::At(Location::Slot(slot)) => push_slot(items, layout, to, *slot)?,
        Operand::Number(number) => push_constant(items, to, *number)?,
        Operand::Name(global) => push_address(items, to, global.number())?,
    }
    Ok(())
}

/// Has an operand in a register: in its own, or in `to`, or the number 0 in x0.
pub(crate) fn push_fetch(
    items: &mut Vec<Item>,
    layout: &Layout,
    to: u8,
    operand: &Operand<Location>,
) -> Result<(), AllocError>
    ensures { OnOk result (items.new.items ≡ items.old.items ++ fetch layout.now to operand.now) }
{
    match operand {
        Operand::At(Location::Register(_)) => {}
        Operand::At(Location::Slot(slot)) => push_slot(items, layout, to, *slot)?,
        Operand::Number(number) => push_number(items, to, *number)?,
        Operand::Name(global) => push_address(items, to, global.number())?,
    }
    Ok(())
}

/// The register in which `push_fetch` has an operand.
pub(crate) fn source_of(to: u8, operand: &Operand<Location>) -> u8
    ensures { result ≡ source to operand.now }
{
    match operand {
        Operand::At(Location::Register(number)) => *number,
        Operand::Number(0) => abi::ZERO,
        Operand::At(Location::Slot(_)) | Operand::Number(_) | Operand::Name(_) => to,
    }
}

/// An operand that is no number: its low 32 bits, sign-extended.
fn push_extended(
    items: &mut Vec<Item>,
    layout: &Layout,
    to: u8,
    operand: &Operand<Location>,
) -> Result<(), AllocError>
    ensures { OnOk result (items.new.items ≡ items.old.items ++ (fetch layout.now to operand.now ++ (extend to (source to operand.now) ∷ []))) }
{
    push_fetch(items, layout, to, operand)?;
    items.push(extend_word(to, source_of(to, operand)))?;
    Ok(())
}

/// Puts the low 32 bits of an operand, sign-extended, into the register `to`.
pub(crate) fn push_word(
    items: &mut Vec<Item>,
    layout: &Layout,
    to: u8,
    operand: &Operand<Location>,
) -> Result<(), AllocError>
    ensures { OnOk result (items.new.items ≡ items.old.items ++ word_into layout.now to operand.now) }
{
    match operand {
        Operand::Number(number) => push_constant(items, to, word(*number)),
        Operand::At(_) | Operand::Name(_) => push_extended(items, layout, to, operand),
    }
}

/// Has the low 32 bits of an operand, sign-extended, in a register: in `to`, or the number 0 in x0.
pub(crate) fn push_word_fetch(
    items: &mut Vec<Item>,
    layout: &Layout,
    to: u8,
    operand: &Operand<Location>,
) -> Result<(), AllocError>
    ensures { OnOk result (items.new.items ≡ items.old.items ++ word_fetch layout.now to operand.now) }
{
    match operand {
        Operand::Number(number) => push_number(items, to, word(*number)),
        Operand::At(_) | Operand::Name(_) => push_word(items, layout, to, operand),
    }
}

/// The register in which `push_word_fetch` has an operand.
pub(crate) fn word_source_of(to: u8, operand: &Operand<Location>) -> u8
    ensures { result ≡ word_source to operand.now }
{
    match operand {
        Operand::Number(number) => source_of(to, &Operand::Number(word(*number))),
        Operand::At(_) | Operand::Name(_) => to,
    }
}

/// The register in which a value for this place is made.
pub(crate) fn target_of(place: &Location) -> u8
    ensures { result ≡ target place.now }
{
    match place {
        Location::Register(number) => *number,
        Location::Slot(_) => abi::FIRST_SCRATCH,
    }
}

/// Brings a value from its `target_of` to its place.
pub(crate) fn push_deliver(
    items: &mut Vec<Item>,
    layout: &Layout,
    place: &Location,
) -> Result<(), AllocError>
    ensures { OnOk result (items.new.items ≡ items.old.items ++ deliver layout.now place.now) }
{
    match place {
        Location::Register(_) => {}
        Location::Slot(slot) => push_into_slot(items, layout, abi::FIRST_SCRATCH, *slot)?,
    }
    Ok(())
}
