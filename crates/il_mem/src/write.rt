//! Writing cells into a block. None of these takes memory.
ghost use Rattle.std.specs.Prelude.{◌≡◌, ◌+◌, ◌≤◌, ◌⊎◌, length, map, take, drop};
ghost use Rattle.il_ast.specs.declared.value.Cell.TheVariants.{Plain};
ghost use Rattle.il_ast.specs.Prelude.{bytes_of, parts};
ghost use Rattle.il_mem.specs.Written.{written};

use crate::block::Block;
use il_ast::{Cell, Value};

/// Writes the low `count` bytes of a number, lowest first.
pub fn write_number(block: &mut Block, to: usize, count: usize, number: u64)
    requires { to + count ≤ length block.old }
    ensures { block.new ≡ written to (map Plain (bytes_of count number)) block.old }
{
    let length = block.len();
    prove!(count <= length);
    let mut rest = number;
    for k in 0..count {
        block.set_byte(to + k, (rest % 256) as u8);
        rest /= 256;
    }
}

/// Writes the eight parts of a value.
pub fn write_parts(block: &mut Block, to: usize, value: Value)
    requires { to + 8 ≤ length block.old }
    ensures { block.new ≡ written to (parts value) block.old }
{
    let length = block.len();
    prove!(8 <= length);
    for index in 0..8u8 {
        block.set(to + usize::from(index), Cell::Part { value, index });
    }
}

/// Copies cells of one block to another.
pub fn copy_across(source: &Block, from: usize, block: &mut Block, to: usize, count: usize)
    requires source { from + count ≤ length source.now }
    requires target { to + count ≤ length block.old }
    ensures { block.new ≡ written to (take count (drop from source.now)) block.old }
{
    let length = source.len();
    let room = block.len();
    prove!(count <= length);
    prove!(count <= room);
    for k in 0..count {
        let cell = source.get(from + k);
        block.set(to + k, cell);
    }
}

/// Copies cells of one block to another place in it; the two spans have no cell in common.
pub fn copy_within(block: &mut Block, from: usize, to: usize, count: usize)
    requires source { from + count ≤ length block.old }
    requires target { to + count ≤ length block.old }
    requires apart { (from + count ≤ to) ⊎ (to + count ≤ from) }
    ensures { block.new ≡ written to (take count (drop from block.old)) block.old }
{
    let length = block.len();
    prove!(count <= length);
    for k in 0..count {
        let cell = block.get(from + k);
        block.set(to + k, cell);
    }
}
