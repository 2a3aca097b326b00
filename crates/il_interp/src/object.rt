//! The cells of data.
ghost use Rattle.std.specs.Prelude.{◌≡◌, ◌++◌, map, replicate, IfOk, OnOk, flat_map};
ghost use Rattle.il_ast.specs.declared.value.Cell.TheVariants.{Plain as PlainCell, Blank as BlankCell};
ghost use Rattle.il_ast.specs.Prelude.{bytes_of, byte_count, parts, globals_of, address_cells, item_cells, field_cells, object_cells};
ghost use Rattle.obj_link.specs.Prelude.{shown, program};

use crate::operand::global_value;
use il_ast::{Cell, DataDef, Field, InText, Item, Size, Value};
use il_mem::block::Block;
use obj_link::Linked;
use std::alloc::{AllocError, Global};

/// Puts bytes at the end of a block.
pub fn push_bytes(block: &mut Block, bytes: &[u8]) -> Result<(), AllocError>
    ensures { OnOk result (block.new ≡ block.old ++ map PlainCell bytes.now) }
{
    for byte in bytes {
        block.push(Cell::Plain(*byte))?;
    }
    Ok(())
}

/// Puts zero bytes at the end of a block.
pub fn push_zeros(block: &mut Block, count: u64) -> Result<(), AllocError>
    ensures { OnOk result (block.new ≡ block.old ++ replicate count (PlainCell 0)) }
{
    for _done in 0..count {
        block.push(Cell::Plain(0))?;
    }
    Ok(())
}

fn push_blanks(block: &mut Block, count: u64) -> Result<(), AllocError>
    ensures { OnOk result (block.new ≡ block.old ++ replicate count BlankCell) }
{
    for _done in 0..count {
        block.push(Cell::Blank)?;
    }
    Ok(())
}

/// Puts the lowest bytes of a number at the end of a block, the lowest first.
fn push_number(block: &mut Block, count: usize, number: u64) -> Result<(), AllocError>
    ensures { OnOk result (block.new ≡ block.old ++ map PlainCell (bytes_of count number)) }
{
    let mut rest = number;
    for _done in 0..count {
        block.push(Cell::Plain((rest % 256) as u8))?;
        rest /= 256;
    }
    Ok(())
}

/// Puts the eight parts of a value at the end of a block.
pub fn push_parts(block: &mut Block, value: Value) -> Result<(), AllocError>
    ensures { OnOk result (block.new ≡ block.old ++ parts value) }
{
    for index in 0..8u8 {
        block.push(Cell::Part { value, index })?;
    }
    Ok(())
}

/// Puts the value of a name with an offset at the end of a block.
fn push_address(block: &mut Block, named: Option<Value>, offset: u64) -> Result<(), AllocError>
    ensures { OnOk result (block.new ≡ block.old ++ address_cells named offset) }
{
    match named {
        Some(value) => match value {
            Value::Pointer {
                block: number,
                offset: start,
            } => push_parts(
                block,
                Value::Pointer {
                    block: number,
                    offset: start.wrapping_add(offset),
                },
            ),
            Value::Function(callee) => {
                if offset == 0 {
                    push_parts(block, Value::Function(callee))
                } else {
                    push_blanks(block, 8)
                }
            }
            Value::Integer(_) => push_blanks(block, 8),
        },
        None => push_blanks(block, 8),
    }
}

fn bytes_in(size: Size) -> usize
    ensures { result ≡ byte_count size }
{
    match size {
        Size::Byte => 1,
        Size::Half => 2,
        Size::Word => 4,
        Size::Long => 8,
    }
}

fn push_item(
    block: &mut Block,
    linked: &Linked<'_>,
    text: usize,
    size: Size,
    item: &Item,
) -> Result<(), AllocError>
    ensures { OnOk result (block.new ≡ block.old ++ item_cells (globals_of (program linked.now) text) size item.now) }
{
    match item {
        Item::Int(number) => push_number(block, bytes_in(size), *number),
        Item::Bytes(bytes) => push_bytes(block, bytes.as_slice()),
        Item::Address { symbol, offset } => {
            push_address(block, global_value(linked, text, symbol.number()), *offset)
        }
    }
}

fn push_items(
    block: &mut Block,
    linked: &Linked<'_>,
    text: usize,
    size: Size,
    items: &[Item],
) -> Result<(), AllocError>
    ensures { OnOk result (block.new ≡ block.old ++ flat_map (item_cells (globals_of (program linked.now) text) size) items.now) }
{
    for item in items {
        push_item(block, linked, text, size, item)?;
    }
    Ok(())
}

fn push_field(
    block: &mut Block,
    linked: &Linked<'_>,
    text: usize,
    field: &Field,
) -> Result<(), AllocError>
    ensures { OnOk result (block.new ≡ block.old ++ field_cells (globals_of (program linked.now) text) field.now) }
{
    match field {
        Field::Items { size, items } => push_items(block, linked, text, *size, items.as_slice()),
        Field::Zeros(count) => push_zeros(block, *count),
    }
}

/// The block of a datum.
pub fn object_block(
    alloc: Global,
    linked: &Linked<'_>,
    object: &InText<&DataDef>,
) -> Result<Block, AllocError>
    ensures { IfOk result (λ block. block ≡ object_cells (program linked.now) (shown object.now)) }
{
    let mut block = Block::empty(alloc);
    let fields = object.item.fields.as_slice();
    for field in fields {
        push_field(&mut block, linked, object.text, field)?;
    }
    Ok(block)
}
