//! The machine code that copies bytes.
ghost use Rattle.std.specs.Prelude.{◌≡◌, ◌<◌, ◌≤◌, [], ◌∷◌, ◌++◌, OnOk};
ghost use Rattle.operation_code.specs.Constants.{add_low};
ghost use Rattle.abi_frames.specs.Emission.{blit_items, copy_at, copy_bytes, copy_pair, copy_pairs, copy_part, copy_parts, copy_rest, far_blit, near_blit, next_part};

use crate::layout::Layout;
use crate::operand::{push_fetch, push_operand, source_of};
use operation_code::fields::{add_immediate, load_at, store_at};
use rv_isa::{Item, LoadOp, StoreOp, abi};
use std::alloc::AllocError;
use vcode::{Location, Operand};

/// As many bytes as fit the offsets of instructions, in whole times eight.
const PART: u64 = 2_040;

/// As many bytes as the load and the store take, at an offset from the addresses in two registers.
fn push_copy(
    items: &mut Vec<Item>,
    load: LoadOp,
    store: StoreOp,
    from: u8,
    to: u8,
    offset: u64,
) -> Result<(), AllocError>
    ensures { OnOk result (items.new.items ≡ items.old.items ++ copy_at load store from to offset) }
{
    items.push(load_at(load, abi::THIRD_SCRATCH, from, offset))?;
    items.push(store_at(store, abi::THIRD_SCRATCH, to, offset))?;
    Ok(())
}

/// Sixteen bytes, both halves of which are loaded before the first is stored.
fn push_pair(items: &mut Vec<Item>, from: u8, to: u8, offset: u64) -> Result<(), AllocError>
    requires { offset ≤ 2048 }
    ensures { OnOk result (items.new.items ≡ items.old.items ++ copy_pair from to offset) }
{
    items.push(load_at(LoadOp::Ld, abi::THIRD_SCRATCH, from, offset))?;
    items.push(load_at(LoadOp::Ld, abi::JUMP_SCRATCH, from, offset + 8))?;
    items.push(store_at(StoreOp::Sd, abi::THIRD_SCRATCH, to, offset))?;
    items.push(store_at(StoreOp::Sd, abi::JUMP_SCRATCH, to, offset + 8))?;
    Ok(())
}

fn push_pairs(items: &mut Vec<Item>, from: u8, to: u8, pairs: u64) -> Result<(), AllocError>
    requires { pairs ≤ 128 }
    ensures { OnOk result (items.new.items ≡ items.old.items ++ copy_pairs from to 0 pairs) }
{
    for done in 0..pairs {
        push_pair(items, from, to, 16 * done)?;
    }
    Ok(())
}

/// Fewer than eight bytes.
fn push_rest(
    items: &mut Vec<Item>,
    from: u8,
    to: u8,
    offset: u64,
    bytes: u64,
) -> Result<(), AllocError>
    requires few { bytes < 8 }
    requires near { offset ≤ 2048 }
    ensures { OnOk result (items.new.items ≡ items.old.items ++ copy_rest from to offset bytes) }
{
    if bytes >= 4 {
        push_copy(items, LoadOp::Lwu, StoreOp::Sw, from, to, offset)?;
    }
    if bytes % 4 >= 2 {
        push_copy(
            items,
            LoadOp::Lhu,
            StoreOp::Sh,
            from,
            to,
            offset + bytes / 4 * 4,
        )?;
    }
    if bytes % 2 >= 1 {
        push_copy(
            items,
            LoadOp::Lbu,
            StoreOp::Sb,
            from,
            to,
            offset + bytes / 2 * 2,
        )?;
    }
    Ok(())
}

/// So few bytes that the offsets fit the instructions.
fn push_bytes(items: &mut Vec<Item>, from: u8, to: u8, bytes: u64) -> Result<(), AllocError>
    requires { bytes < 2048 }
    ensures { OnOk result (items.new.items ≡ items.old.items ++ copy_bytes from to bytes) }
{
    push_pairs(items, from, to, bytes / 16)?;
    if bytes % 16 >= 8 {
        push_copy(items, LoadOp::Ld, StoreOp::Sd, from, to, bytes / 16 * 16)?;
    }
    push_rest(items, from, to, bytes / 8 * 8, bytes % 8)
}

/// The addresses of the next part.
fn push_next(items: &mut Vec<Item>) -> Result<(), AllocError>
    ensures { OnOk result (items.new.items ≡ items.old.items ++ next_part) }
{
    items.push(add_immediate(abi::FIRST_SCRATCH, abi::FIRST_SCRATCH, PART))?;
    items.push(add_immediate(abi::SECOND_SCRATCH, abi::SECOND_SCRATCH, PART))?;
    Ok(())
}

fn push_part(items: &mut Vec<Item>) -> Result<(), AllocError>
    ensures { OnOk result (items.new.items ≡ items.old.items ++ copy_part) }
{
    push_bytes(items, abi::FIRST_SCRATCH, abi::SECOND_SCRATCH, PART)?;
    push_next(items)
}

fn push_parts(items: &mut Vec<Item>, parts: u64) -> Result<(), AllocError>
    ensures { OnOk result (items.new.items ≡ items.old.items ++ copy_parts parts) }
{
    for _ in 0..parts {
        push_part(items)?;
    }
    Ok(())
}

/// Copies few bytes, by the registers that have the addresses, wherever they are.
fn push_near(
    items: &mut Vec<Item>,
    layout: &Layout,
    from: &Operand<Location>,
    to: &Operand<Location>,
    count: u64,
) -> Result<(), AllocError>
    requires { count < 2048 }
    ensures { OnOk result (items.new.items ≡ items.old.items ++ near_blit layout.now from.now to.now count) }
{
    push_fetch(items, layout, abi::FIRST_SCRATCH, from)?;
    push_fetch(items, layout, abi::SECOND_SCRATCH, to)?;
    let source = source_of(abi::FIRST_SCRATCH, from);
    let target = source_of(abi::SECOND_SCRATCH, to);
    push_bytes(items, source, target, count)
}

/// Copies bytes in parts, by addresses that move on.
fn push_far(
    items: &mut Vec<Item>,
    layout: &Layout,
    from: &Operand<Location>,
    to: &Operand<Location>,
    count: u64,
) -> Result<(), AllocError>
    ensures { OnOk result (items.new.items ≡ items.old.items ++ far_blit layout.now from.now to.now count) }
{
    push_operand(items, layout, abi::FIRST_SCRATCH, from)?;
    push_operand(items, layout, abi::SECOND_SCRATCH, to)?;
    push_parts(items, count / PART)?;
    push_bytes(items, abi::FIRST_SCRATCH, abi::SECOND_SCRATCH, count % PART)
}

/// Puts the code that copies so many bytes at the end.
pub(crate) fn push_blit(
    items: &mut Vec<Item>,
    layout: &Layout,
    from: &Operand<Location>,
    to: &Operand<Location>,
    count: u64,
) -> Result<(), AllocError>
    ensures { OnOk result (items.new.items ≡ items.old.items ++ blit_items layout.now from.now to.now count) }
{
    if count < 2_048 {
        push_near(items, layout, from, to, count)
    } else {
        push_far(items, layout, from, to, count)
    }
}
