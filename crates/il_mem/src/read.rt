//! Reading a value from the cells of a block.
ghost use Rattle.std.specs.Prelude.{◌≡◌, ◌+◌, ◌<◌, ◌≤◌, length, take, drop, Some, None, IfOk, MatchOption, option_map};
ghost use Rattle.il_ast.specs.Prelude.{number_of, same_callee, same_value, plain_bytes, are_parts_from, value_of};
ghost use Rattle.il_mem.specs.Cells.{part_value, is_part_of};

use crate::block::Block;
use il_ast::{Callee, Cell, Value};
use std::alloc::{AllocError, Global};

/// The value of `count` cells from a place on, 1 to 8: of bytes their number, lowest first, of eight parts in
/// order the value; else none.
pub fn read(block: &Block, from: usize, count: usize) -> Option<Value>
    requires inside { from + count ≤ length block.now }
    requires some { 0 < count }
    requires few { count ≤ 8 }
    ensures { result ≡ value_of (take count (drop from block.now)) }
{
    match read_number(block, from, count) {
        Some(number) => Some(Value::Integer(number)),
        None => read_whole(block, from, count),
    }
}

/// The value whose eight parts stand from a place on, in order, where these cells aren't all bytes.
fn read_whole(block: &Block, from: usize, count: usize) -> Option<Value>
    requires inside { from + count ≤ length block.now }
    requires some { 0 < count }
    requires mixed { option_map number_of (plain_bytes (take count (drop from block.now))) ≡ None }
    ensures { result ≡ value_of (take count (drop from block.now)) }
{
    match whole_of(block.get(from)) {
        Some(value) => {
            if are_parts(block, from, count, value) {
                Some(value)
            } else {
                None
            }
        }
        None => None,
    }
}

/// The value that a cell is a part of.
fn whole_of(cell: Cell) -> Option<Value>
    ensures { result ≡ part_value cell }
{
    match cell {
        Cell::Part { value, index: _ } => Some(value),
        Cell::Plain(_) | Cell::Blank => None,
    }
}

/// The number of `count` bytes from a place on, lowest first.
pub fn read_number(block: &Block, from: usize, count: usize) -> Option<u64>
    requires inside { from + count ≤ length block.now }
    requires few { count ≤ 8 }
    ensures { result ≡ option_map number_of (plain_bytes (take count (drop from block.now))) }
{
    let length = block.len();
    prove!(count <= length);
    let mut number: u64 = 0;
    let mut left = count;
    while left > 0 {
        left -= 1;
        match block.byte(from + left) {
            Some(byte) => number = number * 256 + u64::from(byte),
            None => return None,
        }
    }
    Some(number)
}

/// The bytes of `count` cells from a place on, or none where one isn't a byte.
pub fn read_bytes(
    alloc: Global,
    block: &Block,
    from: usize,
    count: usize,
) -> Result<Option<Vec<u8>>, AllocError>
    requires { from + count ≤ length block.now }
    ensures { IfOk result (λ found. MatchOption found (plain_bytes (take count (drop from block.now)) ≡ None) (λ bytes. plain_bytes (take count (drop from block.now)) ≡ Some bytes.items)) }
{
    let length = block.len();
    prove!(count <= length);
    let mut bytes = Vec::new(alloc);
    for k in 0..count {
        match block.byte(from + k) {
            Some(byte) => bytes.push(byte)?,
            None => return Ok(None),
        }
    }
    Ok(Some(bytes))
}

/// Whether `count` cells from a place on are the eight parts of a value, in order.
fn are_parts(block: &Block, from: usize, count: usize, value: Value) -> bool
    requires inside { from + count ≤ length block.now }
    ensures { result ≡ are_parts_from 0 value (take count (drop from block.now)) }
{
    let length = block.len();
    prove!(count <= length);
    for k in 0..count {
        if !is_part(block.get(from + k), value, k) {
            return false;
        }
    }
    count == 8
}

/// Whether a cell is the part of a value with this number.
fn is_part(cell: Cell, value: Value, number: usize) -> bool
    ensures { result ≡ is_part_of value number cell }
{
    match cell {
        Cell::Part {
            value: whole,
            index,
        } => is_same_value(whole, value) && usize::from(index) == number,
        Cell::Plain(_) | Cell::Blank => false,
    }
}

fn is_same_value(left: Value, right: Value) -> bool
    ensures { result ≡ same_value left right }
{
    match (left, right) {
        (Value::Integer(a), Value::Integer(b)) => a == b,
        (
            Value::Pointer { block, offset },
            Value::Pointer {
                block: other,
                offset: place,
            },
        ) => block == other && offset == place,
        (Value::Function(f), Value::Function(g)) => is_same_callee(f, g),
        _ => false,
    }
}

fn is_same_callee(left: Callee, right: Callee) -> bool
    ensures { result ≡ same_callee left right }
{
    match (left, right) {
        (Callee::Defined(f), Callee::Defined(g)) => f == g,
        (Callee::SystemWrite, Callee::SystemWrite) => true,
        (Callee::SystemExit, Callee::SystemExit) => true,
        _ => false,
    }
}
