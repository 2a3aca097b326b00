//! Functions with their blocks in another order.
ghost use Rattle.std.specs.Prelude.{◌≡◌, true, false, IfOk, IfSome, MatchOption, IsTrue};
ghost use Rattle.il_ast.specs.Prelude.{Keeps};
ghost use Rattle.vcode.specs.Prelude.{virtual_code};
ghost use Rattle.block_layout.specs.Ordered.{in_order, is_order, IsOrdered, ArePlaces};

use crate::placement::blocks::blocks_in_order;
use crate::placement::choice::chains::chained;
use crate::placement::places::{begins, is_closed, places};
use std::alloc::{AllocError, Global};
use vcode::VFunc;

/// The function in an order, of which these are the places.
fn ordered(
    alloc: Global,
    function: &VFunc,
    order: &[usize],
    places: &[usize],
) -> Result<VFunc, AllocError>
    requires order { IsTrue (is_order order.now function.now.code) }
    requires places { ArePlaces order.now places.now }
    ensures kept { IfOk result (λ w. Keeps (virtual_code function.now) (virtual_code w)) }
    ensures code { IfOk result (λ w. w.code ≡ in_order order.now function.now.code) }
    ensures registers { IfOk result (λ w. w.registers ≡ function.now.registers) }
{
    let blocks = blocks_in_order(alloc, order, places, function.code.blocks.as_slice())?;
    let made = function.with_blocks(alloc, function.registers, blocks)?;
    Ok(made)
}

/// Where blocks stand in the order, if it is one of the code.
fn places_in_order(
    alloc: Global,
    function: &VFunc,
    order: &[usize],
) -> Result<Option<Vec<usize>>, AllocError>
    ensures { IfOk result (λ o. MatchOption o (is_order order.now function.now.code ≡ false)
        (λ places. ArePlaces order.now places.items × (is_order order.now function.now.code ≡ true))) }
{
    let blocks = function.code.blocks.as_slice();
    if !begins(order, blocks.len()) {
        return Ok(None);
    }
    match places(alloc, order, blocks.len())? {
        Some(places) => {
            if is_closed(order, places.as_slice(), blocks) {
                Ok(Some(places))
            } else {
                Ok(None)
            }
        }
        None => Ok(None),
    }
}

/// The function with its blocks in the order, which names them by their places: the k-th is the one at `order[k]`, and jumps lead to where their targets stand then.
/// It is none exactly where that isn't an order of the code: one begins with the first block, names no block twice, and names only blocks that are there, with each
/// that one of them leads to. Others are left out. It takes time and memory as the text and the order are long.
///
/// # Errors
///
/// Only where memory was refused.
pub fn in_order(
    alloc: Global,
    function: &VFunc,
    order: &[usize],
) -> Result<Option<VFunc>, AllocError>
    ensures order { IfOk result (λ o. MatchOption o (is_order order.now function.now.code ≡ false) (λ w. is_order order.now function.now.code ≡ true)) }
    ensures kept { IfOk result (λ o. IfSome o (λ w. Keeps (virtual_code function.now) (virtual_code w))) }
    ensures code { IfOk result (λ o. IfSome o (λ w. w.code ≡ in_order order.now function.now.code)) }
    ensures registers { IfOk result (λ o. IfSome o (λ w. w.registers ≡ function.now.registers)) }
{
    match places_in_order(alloc, function, order)? {
        Some(places) => Ok(Some(ordered(alloc, function, order, places.as_slice())?)),
        None => Ok(None),
    }
}

/// Whether the order names blocks as they stand.
fn stands(order: &[usize]) -> bool {
    order.iter().enumerate().all(|(k, number)| *number == k)
}

/// The function with its blocks in an order in which fewer jumps are taken, by a guess at what runs often, and without those to which nothing leads. It takes time
/// and memory as the text is long, and as finding the depths of loops does.
///
/// # Errors
///
/// Only where memory was refused.
pub fn place_blocks(alloc: Global, function: &VFunc) -> Result<Option<VFunc>, AllocError>
    ensures kept { IfOk result (λ o. IfSome o (λ w. Keeps (virtual_code function.now) (virtual_code w))) }
    ensures ordered { IfOk result (λ o. IfSome o (λ w. IsOrdered function.now w)) }
{
    let order = chained(alloc, function.code.blocks.as_slice())?;
    if order.len() == function.code.blocks.len() && stands(order.as_slice()) {
        return Ok(None);
    }
    in_order(alloc, function, order.as_slice())
}
