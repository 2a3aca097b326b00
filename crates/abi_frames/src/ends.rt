//! The begin and the end of a frame.
ghost use Rattle.std.specs.Prelude.{◌≡◌, ◌+◌, ◌-◌, ◌*◌, ◌^◌, ◌<◌, ◌≤◌, [], ◌∷◌, ◌++◌, length, OnOk};
ghost use Rattle.rv_isa.specs.declared.abi.TheConstants.{STACK_POINTER, FIRST_SCRATCH};
ghost use Rattle.operation_code.specs.Constants.{constant, sum_to};
ghost use Rattle.abi_frames.specs.Emission.{move_pointer, lower_pointer, raise_pointer, save_all, restore_all, prologue, epilogue, go_back};

use crate::layout::Layout;
use operation_code::constant::{has_12_bits, push_constant};
use operation_code::fields::{add, add_immediate, load, register, store};
use rv_isa::{Instr, Item, abi};
use std::alloc::AllocError;
use vcode::place::low_part;

fn push_far_move(items: &mut Vec<Item>, number: u64) -> Result<(), AllocError>
    ensures { OnOk result (items.new.items ≡ items.old.items ++ (constant FIRST_SCRATCH number ++ (sum_to STACK_POINTER STACK_POINTER FIRST_SCRATCH ∷ []))) }
{
    push_constant(items, abi::FIRST_SCRATCH, number)?;
    items.push(add(abi::STACK_POINTER, abi::STACK_POINTER, abi::FIRST_SCRATCH))?;
    Ok(())
}

/// Adds a number to the stack pointer.
fn push_move_pointer(items: &mut Vec<Item>, number: u64) -> Result<(), AllocError>
    ensures { OnOk result (items.new.items ≡ items.old.items ++ move_pointer number) }
{
    if has_12_bits(number) {
        items.push(add_immediate(abi::STACK_POINTER, abi::STACK_POINTER, number))?;
    } else {
        push_far_move(items, number)?;
    }
    Ok(())
}

fn push_lowering(items: &mut Vec<Item>, size: u64) -> Result<(), AllocError>
    ensures { OnOk result (items.new.items ≡ items.old.items ++ lower_pointer size) }
{
    if size != 0 {
        push_move_pointer(items, negative(size))?;
    }
    Ok(())
}

fn push_raising(items: &mut Vec<Item>, size: u64) -> Result<(), AllocError>
    ensures { OnOk result (items.new.items ≡ items.old.items ++ raise_pointer size) }
{
    if size != 0 {
        push_move_pointer(items, size)?;
    }
    Ok(())
}

fn push_saves(items: &mut Vec<Item>, from: u64, registers: &[u8]) -> Result<(), AllocError>
    requires { from + 8 * length registers.now < 2 ^ 32 }
    ensures { OnOk result (items.new.items ≡ items.old.items ++ save_all from registers.now) }
{
    let mut offset = from;
    for number in registers {
        items.push(store(*number, abi::STACK_POINTER, offset))?;
        offset += 8;
    }
    Ok(())
}

fn push_restores(items: &mut Vec<Item>, from: u64, registers: &[u8]) -> Result<(), AllocError>
    requires { from + 8 * length registers.now < 2 ^ 32 }
    ensures { OnOk result (items.new.items ≡ items.old.items ++ restore_all from registers.now) }
{
    let mut offset = from;
    for number in registers {
        items.push(load(*number, abi::STACK_POINTER, offset))?;
        offset += 8;
    }
    Ok(())
}

/// The number of 64 bits that takes this one away.
fn negative(number: u64) -> u64
    requires { 0 < number }
    ensures { result ≡ 2 ^ 64 - number }
{
    u64::MAX - number + 1
}

/// Puts the begin of a frame at the end: the stack pointer goes down, and registers are saved. An empty frame needs nothing.
pub(crate) fn push_prologue(
    items: &mut Vec<Item>,
    layout: &Layout,
    saved: &[u8],
) -> Result<(), AllocError>
    requires few { length saved.now ≤ 13 }
    ensures { OnOk result (items.new.items ≡ items.old.items ++ prologue layout.now saved.now) }
{
    push_lowering(items, layout.size)?;
    push_saves(items, u64::from(layout.saves), saved)
}

pub(crate) fn push_way_back(items: &mut Vec<Item>, size: u64) -> Result<(), AllocError>
    ensures { OnOk result (items.new.items ≡ items.old.items ++ (raise_pointer size ++ (go_back ∷ []))) }
{
    push_raising(items, size)?;
    items.push(Item::Plain(Instr::Jalr {
        rd: register(abi::ZERO),
        rs1: register(abi::RETURN_ADDRESS),
        offset: low_part(0),
    }))?;
    Ok(())
}

/// Puts the end of a frame at the end: registers and the stack pointer are as they were, and the machine goes back.
pub(crate) fn push_epilogue(
    items: &mut Vec<Item>,
    layout: &Layout,
    saved: &[u8],
) -> Result<(), AllocError>
    requires few { length saved.now ≤ 13 }
    ensures { OnOk result (items.new.items ≡ items.old.items ++ epilogue layout.now saved.now) }
{
    push_restores(items, u64::from(layout.saves), saved)?;
    push_way_back(items, layout.size)
}
