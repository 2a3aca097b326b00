//! Where blocks stand in an order, and whether it is one.
ghost use Rattle.std.specs.Prelude.{◌≡◌, ◌<◌, ◌+◌, ◌&&◌, ℕ, true, false, nat_lt, length, IsTrue, IfOk, MatchOption};
ghost use Rattle.std.specs.List.{list_all};
ghost use Rattle.block_layout.specs.Ordered.{place_in, is_named, block_at, begins, names_once, leads_within, is_order, AreUnset, ArePlaces, names_blocks};

use std::alloc::{AllocError, Global};
use vcode::{Block, Jump};

/// The place at which a block stands in the order; of one that isn't named, the first place past the end.
pub(crate) fn place(order: &[usize], places: &[usize], block: usize) -> usize
    requires { ArePlaces order.now places.now }
    ensures { result ≡ place_in order.now block }
{
    match places.get(block) {
        Some(place) => *place,
        None => order.len(),
    }
}

/// Writes where the blocks stand that the order names, from the last to the first. Answers whether it names none twice, and none that isn't there.
fn fill(order: &[usize], places: &mut [usize]) -> bool
    requires { AreUnset order.now places.old }
    ensures named { result ≡ names_blocks order.now (length places.old) }
    ensures places { IsTrue result → ArePlaces order.now places.new }
{
    for i in (0..order.len()).rev() {
        let block = order[i];
        if block >= places.len() {
            return false;
        }
        if places[block] < order.len() {
            return false;
        }
        places[block] = i;
    }
    true
}

/// Where each of so many blocks stands in the order; none where that names a block twice or one that isn't there. It takes time as the order is long.
pub(crate) fn places(
    alloc: Global,
    order: &[usize],
    blocks: usize,
) -> Result<Option<Vec<usize>>, AllocError>
    ensures { IfOk result (λ o. MatchOption o (names_blocks order.now blocks ≡ false)
        (λ v. ArePlaces order.now v.items × (names_blocks order.now blocks ≡ true))) }
{
    let mut places = vec![in alloc; order.len(); blocks]?;
    if fill(order, places.as_mut_slice()) {
        Ok(Some(places))
    } else {
        Ok(None)
    }
}

fn is_named(order: &[usize], places: &[usize], block: usize) -> bool
    requires { ArePlaces order.now places.now }
    ensures { result ≡ is_named order.now block }
{
    place(order, places, block) < order.len()
}

fn leads_within(order: &[usize], places: &[usize], jump: &Jump<u32>) -> bool
    requires { ArePlaces order.now places.now }
    ensures { result ≡ leads_within order.now jump.now }
{
    match jump {
        Jump::Goto(block) => is_named(order, places, *block),
        Jump::Branch { met, otherwise, .. } => {
            is_named(order, places, *met) && is_named(order, places, *otherwise)
        }
        Jump::Return(_) => true,
        Jump::Halt => true,
    }
}

/// Whether the order names each block that the block of this number leads to.
fn leads_on(order: &[usize], places: &[usize], blocks: &[Block<u32>], number: usize) -> bool
    requires { ArePlaces order.now places.now }
    ensures { result ≡ leads_within order.now (block_at blocks.now number).jump }
{
    match blocks.get(number) {
        Some(block) => leads_within(order, places, &block.jump),
        None => true,
    }
}

/// Whether the order names each block that a block of it leads to.
pub(crate) fn is_closed(order: &[usize], places: &[usize], blocks: &[Block<u32>]) -> bool
    requires { ArePlaces order.now places.now }
    ensures { result ≡ list_all (λ k. leads_within order.now (block_at blocks.now k).jump) order.now }
{
    order
        .iter()
        .all(|number| leads_on(order, places, blocks, *number))
}

/// Whether the order begins with the first of so many blocks, where there is one.
pub(crate) fn begins(order: &[usize], blocks: usize) -> bool
    ensures { result ≡ begins blocks order.now }
{
    match order.first() {
        Some(first) => *first == 0,
        None => blocks == 0,
    }
}
