//! Changes of one block.
ghost use Rattle.std.specs.Prelude.{◌≡◌, ◌+◌, ◌||◌, nat_le, None};
ghost use Rattle.il_ast.specs.declared.value.Value.TheVariants.{Integer};
ghost use Rattle.il_ast.specs.Prelude.{byte_count, span};
ghost use Rattle.il_mem.specs.Changed.{integer_in, value_put, cells_put, within_put, ChangesBlock};

use crate::block::Block;
use crate::ranges::has_span;
use crate::words::bytes_in;
use crate::write::{copy_across, copy_within, write_number, write_parts};
use il_ast::{Size, Value};

/// Stores a value of a size, if its cells lie wholly inside.
pub fn store_block(block: &mut Block, at: u64, size: Size, value: Value) -> bool
    ensures { ChangesBlock (value_put at (byte_count size) value) block.old block.new result }
{
    match integer_of(value) {
        Some(number) => store_number(block, at as usize, size, number),
        None => store_parts(block, at as usize, bytes_in(size), value),
    }
}

/// Stores the low bytes of a number, if they lie wholly inside.
fn store_number(block: &mut Block, to: usize, size: Size, number: u64) -> bool
    ensures { ChangesBlock (value_put to (byte_count size) (Integer number)) block.old block.new result }
{
    if block.set_number(to, size, number) {
        return true;
    }
    store_bytes(block, to, bytes_in(size), number)
}

/// The same, cell by cell.
#[inline(never)]
fn store_bytes(block: &mut Block, to: usize, count: usize, number: u64) -> bool
    ensures { ChangesBlock (value_put to count (Integer number)) block.old block.new result }
{
    if has_span(block, to, count) {
        write_number(block, to, count, number);
        true
    } else {
        false
    }
}

/// Stores the parts of a value that is no integer, if there are eight, and they lie wholly inside.
fn store_parts(block: &mut Block, to: usize, count: usize, value: Value) -> bool
    requires { integer_in value ≡ None }
    ensures { ChangesBlock (value_put to count value) block.old block.new result }
{
    if !has_span(block, to, count) {
        return false;
    }
    if count == 8 {
        write_parts(block, to, value);
        true
    } else {
        false
    }
}

/// The number of an integer value.
fn integer_of(value: Value) -> Option<u64>
    ensures { result ≡ integer_in value }
{
    match value {
        Value::Integer(number) => Some(number),
        Value::Pointer { .. } | Value::Function(_) => None,
    }
}

/// Copies cells of another block, if both spans lie wholly inside.
pub fn paste_block(block: &mut Block, at: u64, source: &Block, from: u64, count: usize) -> bool
    ensures { ChangesBlock (cells_put at (span from count source.now)) block.old block.new result }
{
    let start = from as usize;
    let to = at as usize;
    if !has_span(source, start, count) {
        return false;
    }
    if !has_span(block, to, count) {
        return false;
    }
    copy_across(source, start, block, to, count);
    true
}

/// Whether two spans of one block have no cell in common.
fn is_apart(from: usize, to: usize, count: usize) -> bool
    ensures { result ≡ nat_le (from + count) to || nat_le (to + count) from }
{
    if from <= to {
        count <= to - from
    } else {
        count <= from - to
    }
}

/// Copies cells within a block, if both spans lie wholly inside and are the same or apart.
pub fn shift_block(block: &mut Block, at: u64, from: u64, count: usize) -> bool
    ensures { ChangesBlock (within_put at from count) block.old block.new result }
{
    let start = from as usize;
    let to = at as usize;
    if !has_span(block, start, count) {
        return false;
    }
    if !has_span(block, to, count) {
        return false;
    }
    if start == to {
        return true;
    }
    if is_apart(start, to, count) {
        copy_within(block, start, to, count);
        true
    } else {
        false
    }
}
