//! Copies from one block to another.
ghost use Rattle.std.specs.Prelude.{◌≡◌, ◌≢◌, ◌<◌, length, slice_get, option_and_then};
ghost use Rattle.il_ast.specs.Prelude.{span};
ghost use Rattle.il_mem.specs.Changed.{cells_put, Changes};

use crate::block::Block;
use crate::change::paste_block;
use std::alloc::Global;
use std::mem;

/// Copies `count` cells from the block at a place to the one at another place, if both spans lie inside.
pub fn transfer(
    live: &mut Vec<Block>,
    alloc: Global,
    source: usize,
    from: u64,
    target: usize,
    at: u64,
    count: usize,
) -> bool
    requires source { source < length live.old.items }
    requires target { target < length live.old.items }
    requires apart { source ≢ target }
    ensures many { length live.new.items ≡ length live.old.items }
    ensures changes { Changes (cells_put at (option_and_then (span from count) (slice_get live.old.items source))) (slice_get live.old.items) (slice_get live.new.items) target result }
{
    let cells = mem::replace(&mut live[source], Block::empty(alloc));
    let pasted = paste_block(&mut live[target], at, &cells, from, count);
    live[source] = cells;
    pasted
}
