//! Spans of the cells of a block.
ghost use Rattle.std.specs.Prelude.{◌≡◌, ◌+◌, ◌<◌, ◌≤◌, length, nat_le, Some, None, IfOk, IfSome, MatchOption, option_and_then};
ghost use Rattle.il_ast.specs.declared.value.Value.TheVariants.{Integer};
ghost use Rattle.il_ast.specs.Prelude.{byte_count, span, value_of, plain_bytes};

use crate::block::Block;
use crate::read::{read, read_bytes, read_number};
use crate::words::bytes_in;
use il_ast::{Size, Value};
use std::alloc::{AllocError, Global};

/// Whether `count` cells from a place on lie wholly inside.
pub fn has_span(block: &Block, from: usize, count: usize) -> bool
    ensures { result ≡ nat_le (from + count) (length block.now) }
{
    let length = block.len();
    count <= length && from <= length - count
}

/// The bytes of so many cells of a block.
pub fn block_bytes(
    alloc: Global,
    block: &Block,
    from: usize,
    count: usize,
) -> Result<Option<Vec<u8>>, AllocError>
    ensures { IfOk result (λ found. MatchOption found (option_and_then plain_bytes (span from count block.now) ≡ None) (λ bytes. option_and_then plain_bytes (span from count block.now) ≡ Some bytes.items)) }
{
    if has_span(block, from, count) {
        read_bytes(alloc, block, from, count)
    } else {
        Ok(None)
    }
}

/// The value of so many cells of a block, 1 to 8.
pub fn load_block(block: &Block, offset: u64, count: usize) -> Option<Value>
    requires some { 0 < count }
    requires few { count ≤ 8 }
    ensures { result ≡ option_and_then value_of (span offset count block.now) }
{
    let from = offset as usize;
    if has_span(block, from, count) {
        read(block, from, count)
    } else {
        None
    }
}

/// The number of so many bytes of a block, if they lie wholly inside and are bytes.
pub fn number_in(block: &Block, offset: u64, size: Size) -> Option<u64>
    ensures { IfSome result (λ number. option_and_then value_of (span offset (byte_count size) block.now) ≡ Some (Integer number)) }
{
    match block.number(offset as usize, size) {
        Some(number) => Some(number),
        None => number_of_cells(block, offset as usize, bytes_in(size)),
    }
}

/// The same, cell by cell.
#[inline(never)]
fn number_of_cells(block: &Block, from: usize, count: usize) -> Option<u64>
    requires { count ≤ 8 }
    ensures { IfSome result (λ number. option_and_then value_of (span from count block.now) ≡ Some (Integer number)) }
{
    if has_span(block, from, count) {
        read_number(block, from, count)
    } else {
        None
    }
}
