//! The machine code of lines.
ghost use Rattle.il_ast.specs.declared.limits.TheConstants.{ALLOC_BYTES};
ghost use Rattle.std.specs.Prelude.{◌≡◌, ◌^◌, ◌<◌, ◌≤◌, IsTrue, [], ◌∷◌, ◌++◌, OnOk, ◌+◌};
ghost use Rattle.std.specs.List.{list_all, sum_by};
ghost use Rattle.vcode.specs.Prelude.{alloc_bytes, passes_few};
ghost use Rattle.vcode.specs.declared.place.Location.TheVariants.{Slot};
ghost use Rattle.abi_frames.specs.Emission.{operand_into, operand_source, on_registers, by_form, set_items, operate_items, base_items, load_by, store_by, load_items, store_op, store_items, alloc_items, line_items, lines_items};

use crate::call::push_call;
use crate::copy::push_blit;
use crate::layout::Layout;
use crate::operand::{
    push_address_at, push_deliver, push_fetch, push_into_slot, push_operand, push_word_fetch,
    source_of, target_of, word_source_of,
};
use crate::room::alloc_bytes;
use il_ast::{Class, Size};
use operation_code::fields::{load_to, register, store_from};
use operation_code::immediate::{Form, left_form, push_form, right_form};
use operation_code::name::with_name;
use operation_code::operation::push_operation;
use rv_isa::{Item, LoadOp, Partial, StoreOp, abi};
use std::alloc::AllocError;
use vcode::{Address, Line, Location, Operand, Operation};

fn push_set_slot(
    items: &mut Vec<Item>,
    layout: &Layout,
    slot: u32,
    value: &Operand<Location>,
) -> Result<(), AllocError>
    ensures { OnOk result (items.new.items ≡ items.old.items ++ set_items layout.now (Slot slot) value.now) }
{
    push_fetch(items, layout, abi::FIRST_SCRATCH, value)?;
    push_into_slot(items, layout, source_of(abi::FIRST_SCRATCH, value), slot)
}

pub(crate) fn push_set(
    items: &mut Vec<Item>,
    layout: &Layout,
    to: &Location,
    value: &Operand<Location>,
) -> Result<(), AllocError>
    ensures { OnOk result (items.new.items ≡ items.old.items ++ set_items layout.now to.now value.now) }
{
    match to {
        Location::Register(number) => push_operand(items, layout, *number, value)?,
        Location::Slot(slot) => push_set_slot(items, layout, *slot, value)?,
    }
    Ok(())
}

/// Has an operand of the operation in a register: a word is extended before it is compared.
pub(crate) fn push_operand_for(
    items: &mut Vec<Item>,
    layout: &Layout,
    operation: &Operation,
    to: u8,
    operand: &Operand<Location>,
) -> Result<(), AllocError>
    ensures { OnOk result (items.new.items ≡ items.old.items ++ operand_into layout.now operation.now to operand.now) }
{
    match operation {
        Operation::Compare(_, Class::W) => push_word_fetch(items, layout, to, operand),
        Operation::Compare(_, Class::L) | Operation::Reg(_) | Operation::RegW(_) => {
            push_fetch(items, layout, to, operand)
        }
    }
}

pub(crate) fn operand_source(operation: &Operation, to: u8, operand: &Operand<Location>) -> u8
    ensures { result ≡ operand_source operation.now to operand.now }
{
    match operation {
        Operation::Compare(_, Class::W) => word_source_of(to, operand),
        Operation::Compare(_, Class::L) | Operation::Reg(_) | Operation::RegW(_) => {
            source_of(to, operand)
        }
    }
}

fn push_on_registers(
    items: &mut Vec<Item>,
    layout: &Layout,
    to: &Location,
    operation: &Operation,
    left: &Operand<Location>,
    right: &Operand<Location>,
) -> Result<(), AllocError>
    ensures { OnOk result (items.new.items ≡ items.old.items ++ on_registers layout.now to.now operation.now left.now right.now) }
{
    push_operand_for(items, layout, operation, abi::FIRST_SCRATCH, left)?;
    push_operand_for(items, layout, operation, abi::SECOND_SCRATCH, right)?;
    push_operation(
        items,
        operation,
        target_of(to),
        operand_source(operation, abi::FIRST_SCRATCH, left),
        operand_source(operation, abi::SECOND_SCRATCH, right),
    )?;
    push_deliver(items, layout, to)?;
    Ok(())
}

/// The other operand's number is in the form.
fn push_by_form(
    items: &mut Vec<Item>,
    layout: &Layout,
    to: &Location,
    operation: &Operation,
    operand: &Operand<Location>,
    form: Form,
) -> Result<(), AllocError>
    ensures { OnOk result (items.new.items ≡ items.old.items ++ by_form layout.now to.now operation.now operand.now form) }
{
    push_operand_for(items, layout, operation, abi::FIRST_SCRATCH, operand)?;
    push_form(
        items,
        form,
        target_of(to),
        operand_source(operation, abi::FIRST_SCRATCH, operand),
    )?;
    push_deliver(items, layout, to)?;
    Ok(())
}

fn push_operate(
    items: &mut Vec<Item>,
    layout: &Layout,
    to: &Location,
    operation: &Operation,
    left: &Operand<Location>,
    right: &Operand<Location>,
) -> Result<(), AllocError>
    ensures { OnOk result (items.new.items ≡ items.old.items ++ operate_items layout.now to.now operation.now left.now right.now) }
{
    match (right_form(operation, right), left_form(operation, left)) {
        (Some(form), _) => push_by_form(items, layout, to, operation, left, form),
        (None, Some(form)) => push_by_form(items, layout, to, operation, right, form),
        (None, None) => push_on_registers(items, layout, to, operation, left, right),
    }
}

/// Has in a register what an access at this offset from the base needs there.
fn push_base(
    items: &mut Vec<Item>,
    layout: &Layout,
    to: u8,
    at: &Address<Location>,
) -> Result<(), AllocError>
    ensures { OnOk result (items.new.items ≡ items.old.items ++ base_items layout.now to at.now.base at.now.offset) }
{
    match &at.base {
        Operand::Name(global) => {
            let upper = Partial::Upper(register(to));
            items.push(with_name(upper, global.number(), at.offset))?;
            Ok(())
        }
        Operand::At(_) | Operand::Number(_) => push_fetch(items, layout, to, &at.base),
    }
}

/// The load at an address of which `push_base` has the base in x28.
fn load_by(op: LoadOp, to: u8, at: &Address<Location>) -> Item
    ensures { result ≡ load_by op to at.now.base at.now.offset }
{
    match &at.base {
        Operand::Name(global) => {
            let load = Partial::Load {
                op,
                rd: register(to),
                rs1: register(abi::FIRST_SCRATCH),
            };
            with_name(load, global.number(), at.offset)
        }
        Operand::At(_) | Operand::Number(_) => {
            load_to(op, to, source_of(abi::FIRST_SCRATCH, &at.base), at.offset)
        }
    }
}

fn push_load_line(
    items: &mut Vec<Item>,
    layout: &Layout,
    to: &Location,
    op: LoadOp,
    at: &Address<Location>,
) -> Result<(), AllocError>
    ensures { OnOk result (items.new.items ≡ items.old.items ++ load_items layout.now to.now op at.now) }
{
    push_base(items, layout, abi::FIRST_SCRATCH, at)?;
    items.push(load_by(op, target_of(to), at))?;
    push_deliver(items, layout, to)?;
    Ok(())
}

fn store_op(size: Size) -> StoreOp
    ensures { result ≡ store_op size }
{
    match size {
        Size::Byte => StoreOp::Sb,
        Size::Half => StoreOp::Sh,
        Size::Word => StoreOp::Sw,
        Size::Long => StoreOp::Sd,
    }
}

/// The store of a register at an address of which `push_base` has the base in x29.
fn store_by(op: StoreOp, value: u8, at: &Address<Location>) -> Item
    ensures { result ≡ store_by op value at.now.base at.now.offset }
{
    match &at.base {
        Operand::Name(global) => {
            let store = Partial::Store {
                op,
                rs1: register(abi::SECOND_SCRATCH),
                rs2: register(value),
            };
            with_name(store, global.number(), at.offset)
        }
        Operand::At(_) | Operand::Number(_) => store_from(
            op,
            value,
            source_of(abi::SECOND_SCRATCH, &at.base),
            at.offset,
        ),
    }
}

fn push_store_line(
    items: &mut Vec<Item>,
    layout: &Layout,
    size: Size,
    value: &Operand<Location>,
    at: &Address<Location>,
) -> Result<(), AllocError>
    ensures { OnOk result (items.new.items ≡ items.old.items ++ store_items layout.now size value.now at.now) }
{
    push_fetch(items, layout, abi::FIRST_SCRATCH, value)?;
    push_base(items, layout, abi::SECOND_SCRATCH, at)?;
    items.push(store_by(store_op(size), source_of(abi::FIRST_SCRATCH, value), at))?;
    Ok(())
}

/// The address of a block of memory, where a place takes it.
fn push_alloc(
    items: &mut Vec<Item>,
    layout: &Layout,
    used: u64,
    to: &Option<Location>,
) -> Result<(), AllocError>
    requires near { used ≤ ALLOC_BYTES }
    ensures { OnOk result (items.new.items ≡ items.old.items ++ alloc_items layout.now used to.now) }
{
    if let Some(to) = to {
        push_address_at(items, target_of(to), u64::from(layout.area) + used)?;
        push_deliver(items, layout, to)?;
    }
    Ok(())
}

/// Puts the code of a line at the end; `used` bytes of the area for blocks of memory are taken by the lines before.
pub(crate) fn push_line(
    items: &mut Vec<Item>,
    layout: &Layout,
    used: u64,
    line: &Line<Location>,
) -> Result<(), AllocError>
    requires few { IsTrue (passes_few line.now) }
    requires near { used ≤ ALLOC_BYTES }
    ensures { OnOk result (items.new.items ≡ items.old.items ++ line_items layout.now used line.now) }
{
    match line {
        Line::Set { to, value } => push_set(items, layout, to, value),
        Line::Operate {
            to,
            operation,
            left,
            right,
        } => push_operate(items, layout, to, operation, left, right),
        Line::Load { to, op, at } => push_load_line(items, layout, to, *op, at),
        Line::Call { to, callee, args } => push_call(items, layout, to, callee, args.as_slice()),
        Line::Store { size, value, at } => push_store_line(items, layout, *size, value, at),
        Line::Alloc { to, .. } => push_alloc(items, layout, used, to),
        Line::Blit { from, to, count } => push_blit(items, layout, from, to, *count),
        Line::Tick { .. } => Ok(()),
    }
}

/// Puts the code of a block's lines at the end.
pub(crate) fn push_lines(
    items: &mut Vec<Item>,
    layout: &Layout,
    lines: &[Line<Location>],
) -> Result<(), AllocError>
    requires room { sum_by alloc_bytes lines.now ≤ ALLOC_BYTES }
    requires few { IsTrue (list_all passes_few lines.now) }
    ensures { OnOk result (items.new.items ≡ items.old.items ++ lines_items layout.now 0 lines.now) }
{
    let mut used = 0;
    for line in lines {
        push_line(items, layout, used, line)?;
        used += alloc_bytes(line);
    }
    Ok(())
}
