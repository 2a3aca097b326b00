//! The machine code of calls.
ghost use Rattle.std.specs.Prelude.{◌≡◌, ◌-◌, ◌*◌, ◌^◌, ◌<◌, ◌≤◌, [], ◌∷◌, ◌++◌, ◌&&◌, length, nat_le, OnOk};
ghost use Rattle.rv_isa.specs.declared.abi.TheConstants.{STACK_POINTER, FIRST_ARGUMENT, LAST_ARGUMENT, FIRST_SCRATCH};
ghost use Rattle.operation_code.specs.Constants.{store_8};
ghost use Rattle.abi_frames.specs.Emission.{passed_class, pass_into, stack_all, register_items, register_all, passed_items, callee_items, callee_source, call_through, receive_items, call_items};

use crate::layout::Layout;
use crate::line::push_set;
use crate::moves::push_moves_up;
use crate::operand::{push_fetch, push_operand, push_word, source_of};
use il_ast::Class;
use operation_code::fields::{add_immediate, register, store};
use rv_isa::{Instr, Item, abi};
use std::alloc::AllocError;
use vcode::place::low_part;
use vcode::{Argument, Destination, Extension, Location, Operand};

/// The class that a value is passed as: a word that stands extended is passed as it is.
pub(crate) fn passed_class(extension: Extension, class: Class) -> Class
    ensures { result ≡ passed_class extension class }
{
    match extension {
        Extension::Made => class,
        Extension::Claimed => Class::L,
    }
}

/// Has a value of the class in a register, a word sign-extended.
pub(crate) fn push_value(
    items: &mut Vec<Item>,
    layout: &Layout,
    to: u8,
    class: Class,
    value: &Operand<Location>,
) -> Result<(), AllocError>
    ensures { OnOk result (items.new.items ≡ items.old.items ++ pass_into layout.now to class value.now) }
{
    match class {
        Class::W => push_word(items, layout, to, value),
        Class::L => push_operand(items, layout, to, value),
    }
}

fn push_argument(
    items: &mut Vec<Item>,
    layout: &Layout,
    to: u8,
    argument: &Argument<Location>,
) -> Result<(), AllocError>
    ensures { OnOk result (items.new.items ≡ items.old.items ++ pass_into layout.now to (passed_class argument.now.extension argument.now.class) argument.now.value) }
{
    push_value(
        items,
        layout,
        to,
        passed_class(argument.extension, argument.class),
        &argument.value,
    )
}

/// Puts an argument on the stack, at an offset from the stack pointer.
fn push_stacked(
    items: &mut Vec<Item>,
    layout: &Layout,
    offset: u64,
    argument: &Argument<Location>,
) -> Result<(), AllocError>
    ensures { OnOk result (items.new.items ≡ items.old.items ++ (pass_into layout.now FIRST_SCRATCH (passed_class argument.now.extension argument.now.class) argument.now.value ++ (store_8 FIRST_SCRATCH STACK_POINTER offset ∷ []))) }
{
    push_argument(items, layout, abi::FIRST_SCRATCH, argument)?;
    items.push(store(abi::FIRST_SCRATCH, abi::STACK_POINTER, offset))?;
    Ok(())
}

fn push_stack_arguments(
    items: &mut Vec<Item>,
    layout: &Layout,
    arguments: &[Argument<Location>],
) -> Result<(), AllocError>
    requires few { length arguments.now ≤ 64 }
    ensures { OnOk result (items.new.items ≡ items.old.items ++ stack_all layout.now 0 arguments.now) }
{
    for (number, argument) in arguments.iter().enumerate() {
        if number >= usize::from(abi::ARGUMENT_REGISTERS) {
            let above = number as u64 - u64::from(abi::ARGUMENT_REGISTERS);
            push_stacked(items, layout, 8 * above, argument)?;
        }
    }
    Ok(())
}

/// The argument of that number in its register, if it has one.
fn push_in_register(
    items: &mut Vec<Item>,
    layout: &Layout,
    number: usize,
    argument: &Argument<Location>,
) -> Result<(), AllocError>
    ensures { OnOk result (items.new.items ≡ items.old.items ++ register_items layout.now number argument.now) }
{
    if number < usize::from(abi::ARGUMENT_REGISTERS) {
        push_argument(items, layout, abi::FIRST_ARGUMENT + number as u8, argument)?;
    }
    Ok(())
}

fn push_register_arguments(
    items: &mut Vec<Item>,
    layout: &Layout,
    arguments: &[Argument<Location>],
) -> Result<(), AllocError>
    ensures { OnOk result (items.new.items ≡ items.old.items ++ register_all layout.now 0 arguments.now) }
{
    for (number, argument) in arguments.iter().enumerate() {
        push_in_register(items, layout, number, argument)?;
    }
    Ok(())
}

/// Puts at the end what has the first eight of these arguments in x10 to x17, whichever of these registers they are in before.
///
/// # Errors
///
/// Only where memory was refused.
pub(crate) fn push_passed(
    items: &mut Vec<Item>,
    layout: &Layout,
    arguments: &[Argument<Location>],
) -> Result<(), AllocError>
    ensures { OnOk result (items.new.items ≡ items.old.items ++ passed_items layout.now arguments.now) }
{
    let now = push_moves_up(items, arguments)?;
    push_register_arguments(items, layout, now.as_slice())
}

/// A register in which an argument is passed.
fn is_for_arguments(number: u8) -> bool
    ensures { result ≡ (nat_le FIRST_ARGUMENT number && nat_le number LAST_ARGUMENT) }
{
    abi::FIRST_ARGUMENT <= number && number <= abi::LAST_ARGUMENT
}

/// Has the callee's address where no argument changes it, unless the jump makes it.
fn push_callee(
    items: &mut Vec<Item>,
    layout: &Layout,
    callee: &Operand<Location>,
) -> Result<(), AllocError>
    ensures { OnOk result (items.new.items ≡ items.old.items ++ callee_items layout.now callee.now) }
{
    match callee {
        Operand::At(Location::Register(number)) => {
            if is_for_arguments(*number) {
                items.push(add_immediate(abi::FIRST_SCRATCH, *number, 0))?;
            }
            Ok(())
        }
        Operand::At(Location::Slot(_)) | Operand::Number(_) => {
            push_fetch(items, layout, abi::FIRST_SCRATCH, callee)
        }
        Operand::Name(_) => Ok(()),
    }
}

fn callee_source(callee: &Operand<Location>) -> u8
    ensures { result ≡ callee_source callee.now }
{
    match callee {
        Operand::At(Location::Register(number)) if is_for_arguments(*number) => abi::FIRST_SCRATCH,
        _ => source_of(abi::FIRST_SCRATCH, callee),
    }
}

/// To the callee.
fn push_jump(items: &mut Vec<Item>, callee: &Operand<Location>) -> Result<(), AllocError>
    ensures { OnOk result (items.new.items ≡ items.old.items ++ call_through callee.now) }
{
    match callee {
        Operand::Name(global) => items.push(Item::Call(global.number()))?,
        Operand::At(_) | Operand::Number(_) => items.push(Item::Plain(Instr::Jalr {
            rd: register(abi::RETURN_ADDRESS),
            rs1: register(callee_source(callee)),
            offset: low_part(0),
        }))?,
    }
    Ok(())
}

fn push_receive(
    items: &mut Vec<Item>,
    layout: &Layout,
    to: &Option<Destination<Location>>,
) -> Result<(), AllocError>
    ensures { OnOk result (items.new.items ≡ items.old.items ++ receive_items layout.now to.now) }
{
    match to {
        None => {}
        Some(wanted) => push_set(
            items,
            layout,
            &wanted.place,
            &Operand::At(Location::Register(abi::RESULT)),
        )?,
    }
    Ok(())
}

/// Puts the code of a call at the end: its arguments, the jump to the callee, and what brings the result to its place.
pub(crate) fn push_call(
    items: &mut Vec<Item>,
    layout: &Layout,
    to: &Option<Destination<Location>>,
    callee: &Operand<Location>,
    arguments: &[Argument<Location>],
) -> Result<(), AllocError>
    requires few { length arguments.now ≤ 64 }
    ensures { OnOk result (items.new.items ≡ items.old.items ++ call_items layout.now to.now callee.now arguments.now) }
{
    push_stack_arguments(items, layout, arguments)?;
    push_callee(items, layout, callee)?;
    push_passed(items, layout, arguments)?;
    push_jump(items, callee)?;
    push_receive(items, layout, to)?;
    Ok(())
}
