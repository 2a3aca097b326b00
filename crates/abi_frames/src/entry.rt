//! On entry: arguments come to the places of their parameters.
ghost use Rattle.std.specs.Prelude.{◌≡◌, ◌+◌, ◌-◌, ◌*◌, ◌^◌, ◌<◌, ◌≤◌, [], ◌∷◌, ◌++◌, length, if◌then◌else◌, IsTrue, OnOk, IfOk};
ghost use Rattle.rv_isa.specs.declared.abi.TheConstants.{ARGUMENT_REGISTERS};
ghost use Rattle.vcode.specs.declared.place.Location.TheVariants.{Slot};
ghost use Rattle.abi_frames.specs.Functions.{caller_pointer, from_register, from_stack, argument_items, arguments_items, is_for_arguments, goes_away, is_on_stack, comes_to, source_in, sources, pointer_items, entry_items};
ghost use Rattle.abi_frames.specs.Emission.{passed_items};

use crate::call::push_passed;
use crate::layout::Layout;
use crate::operand::push_into_slot;
use frame_ways::bare::is_register;
use il_ast::Class;
use operation_code::constant::push_constant;
use operation_code::fields::{add, add_immediate, load};
use rv_isa::{Item, abi};
use std::alloc::{AllocError, Global};
use vcode::{Argument, Destination, Extension, Location, Operand};

/// The caller's stack pointer into x30.
fn push_caller_pointer(items: &mut Vec<Item>, layout: &Layout) -> Result<(), AllocError>
    ensures { OnOk result (items.new.items ≡ items.old.items ++ caller_pointer layout.now) }
{
    push_constant(items, abi::THIRD_SCRATCH, layout.size)?;
    items.push(add(abi::THIRD_SCRATCH, abi::THIRD_SCRATCH, abi::STACK_POINTER))?;
    Ok(())
}

fn push_from_register(
    items: &mut Vec<Item>,
    layout: &Layout,
    argument: u8,
    place: &Location,
) -> Result<(), AllocError>
    requires few { argument < ARGUMENT_REGISTERS }
    ensures { OnOk result (items.new.items ≡ items.old.items ++ from_register layout.now argument place.now) }
{
    match place {
        Location::Register(number) => {
            items.push(add_immediate(*number, abi::FIRST_ARGUMENT + argument, 0))?;
        }
        Location::Slot(slot) => push_into_slot(
            items,
            layout,
            abi::FIRST_ARGUMENT + argument,
            *slot,
        )?,
    }
    Ok(())
}

fn push_stack_to_slot(
    items: &mut Vec<Item>,
    layout: &Layout,
    argument: u8,
    slot: u32,
) -> Result<(), AllocError>
    requires many { ARGUMENT_REGISTERS ≤ argument }
    ensures { OnOk result (items.new.items ≡ items.old.items ++ from_stack layout.now argument (Slot slot)) }
{
    items.push(load(
        abi::FIRST_SCRATCH,
        abi::THIRD_SCRATCH,
        8 * u64::from(argument - abi::ARGUMENT_REGISTERS),
    ))?;
    push_into_slot(items, layout, abi::FIRST_SCRATCH, slot)?;
    Ok(())
}

fn push_from_stack(
    items: &mut Vec<Item>,
    layout: &Layout,
    argument: u8,
    place: &Location,
) -> Result<(), AllocError>
    requires many { ARGUMENT_REGISTERS ≤ argument }
    ensures { OnOk result (items.new.items ≡ items.old.items ++ from_stack layout.now argument place.now) }
{
    match place {
        Location::Register(number) => items.push(load(
            *number,
            abi::THIRD_SCRATCH,
            8 * u64::from(argument - abi::ARGUMENT_REGISTERS),
        ))?,
        Location::Slot(slot) => push_stack_to_slot(items, layout, argument, *slot)?,
    }
    Ok(())
}

fn push_argument(
    items: &mut Vec<Item>,
    layout: &Layout,
    argument: u8,
    place: &Location,
) -> Result<(), AllocError>
    ensures { OnOk result (items.new.items ≡ items.old.items ++ argument_items layout.now argument place.now) }
{
    if argument < abi::ARGUMENT_REGISTERS {
        push_from_register(items, layout, argument, place)
    } else {
        push_from_stack(items, layout, argument, place)
    }
}

/// A register in which an argument is passed.
fn is_for_arguments(place: &Location) -> bool
    ensures { result ≡ is_for_arguments place.now }
{
    match place {
        Location::Register(number) => abi::FIRST_ARGUMENT <= *number
            && *number <= abi::LAST_ARGUMENT,
        Location::Slot(_) => false,
    }
}

/// Passed in a register, to a place elsewhere.
fn goes_away(argument: usize, place: &Location) -> bool
    ensures { result ≡ goes_away argument place.now }
{
    argument < usize::from(abi::ARGUMENT_REGISTERS) && !is_for_arguments(place)
}

/// Arguments in registers, to places elsewhere.
fn push_away(
    items: &mut Vec<Item>,
    layout: &Layout,
    params: &[Destination<Location>],
) -> Result<(), AllocError>
    requires few { length params.now ≤ 64 }
    ensures { OnOk result (items.new.items ≡ items.old.items ++ arguments_items layout.now goes_away 0 params.now) }
{
    for (argument, parameter) in params.iter().enumerate() {
        if goes_away(argument, &parameter.place) {
            push_argument(items, layout, argument as u8, &parameter.place)?;
        }
    }
    Ok(())
}

/// An argument if it is on the stack.
fn push_if_stacked(
    items: &mut Vec<Item>,
    layout: &Layout,
    argument: u8,
    place: &Location,
) -> Result<(), AllocError>
    ensures { OnOk result (items.new.items ≡ items.old.items ++ (if is_on_stack argument place.now then argument_items layout.now argument place.now else [])) }
{
    if argument >= abi::ARGUMENT_REGISTERS {
        push_from_stack(items, layout, argument, place)?;
    }
    Ok(())
}

fn push_stacked(
    items: &mut Vec<Item>,
    layout: &Layout,
    params: &[Destination<Location>],
) -> Result<(), AllocError>
    requires few { length params.now ≤ 64 }
    ensures { OnOk result (items.new.items ≡ items.old.items ++ arguments_items layout.now is_on_stack 0 params.now) }
{
    for (argument, parameter) in params.iter().enumerate() {
        push_if_stacked(items, layout, argument as u8, &parameter.place)?;
    }
    Ok(())
}

/// Passed in a register, to the place of the argument register of that number.
fn comes_to(number: u8, argument: usize, place: &Location) -> bool
    requires { number < ARGUMENT_REGISTERS }
    ensures value { result ≡ comes_to number argument place.now }
    ensures few { IsTrue result → argument < ARGUMENT_REGISTERS }
{
    argument < usize::from(abi::ARGUMENT_REGISTERS)
        && is_register(place, abi::FIRST_ARGUMENT + number)
}

/// The register from which the one of that number, from x10 on, takes an argument.
fn source_in(number: u8, params: &[Destination<Location>]) -> u8
    requires { number < ARGUMENT_REGISTERS }
    ensures { result ≡ source_in number 0 params.now }
{
    for (argument, parameter) in params.iter().enumerate() {
        if comes_to(number, argument, &parameter.place) {
            return abi::FIRST_ARGUMENT + argument as u8;
        }
    }
    abi::FIRST_ARGUMENT + number
}

fn sources(
    alloc: Global,
    params: &[Destination<Location>],
) -> Result<Vec<Argument<Location>>, AllocError>
    ensures { IfOk result (λ v. v.items ≡ sources ARGUMENT_REGISTERS 0 params.now) }
{
    let mut all = Vec::new(alloc);
    for number in 0..abi::ARGUMENT_REGISTERS {
        all.push(Argument {
            class: Class::L,
            value: Operand::At(Location::Register(source_in(number, params))),
            extension: Extension::Made,
        })?;
    }
    Ok(all)
}

/// Arguments in registers, to places in one another's.
fn push_exchanged(
    items: &mut Vec<Item>,
    layout: &Layout,
    params: &[Destination<Location>],
) -> Result<(), AllocError>
    ensures { OnOk result (items.new.items ≡ items.old.items ++ passed_items layout.now (sources ARGUMENT_REGISTERS 0 params.now)) }
{
    let all = sources(*items.allocator(), params)?;
    push_passed(items, layout, all.as_slice())
}

fn push_pointer(items: &mut Vec<Item>, layout: &Layout, params: usize) -> Result<(), AllocError>
    ensures { OnOk result (items.new.items ≡ items.old.items ++ pointer_items layout.now params) }
{
    if usize::from(abi::ARGUMENT_REGISTERS) < params {
        push_caller_pointer(items, layout)?;
    }
    Ok(())
}

/// Puts at the end what brings arguments to the places of their parameters.
pub(crate) fn push_entry(
    items: &mut Vec<Item>,
    layout: &Layout,
    params: &[Destination<Location>],
) -> Result<(), AllocError>
    requires few { length params.now ≤ 64 }
    ensures { OnOk result (items.new.items ≡ items.old.items ++ entry_items layout.now params.now) }
{
    push_pointer(items, layout, params.len())?;
    push_away(items, layout, params)?;
    push_exchanged(items, layout, params)?;
    push_stacked(items, layout, params)?;
    Ok(())
}
