//! Which lines change places: a guess, of which nothing is proved.
//!
//! It goes over a block as a processor with one pipeline does, and takes of the next eight lines one that needn't wait, that on which most rests. [`latencies`] has
//! what lines take, `facts` what lines wait for, by the places that they read (`reads`), `order` finds the order and `swaps` how to come there.

mod facts;
pub mod latencies;
mod order;
mod reads;
mod swaps;

use facts::facts_of;
use il_ast::Seq;
use order::order_of;
use std::alloc::{AllocError, Global};
use swaps::swaps_to;
use vcode::{Block, LFunc, Location};

/// How many lines the choice looks at: those of one are no further apart. At most 16.
pub(crate) const WINDOW: u32 = 8;

/// The swaps of a block. None where no line has to wait for another, or nothing can be done about it.
fn swaps_of(alloc: Global, block: &Block<Location>) -> Result<Option<Vec<usize>>, AllocError> {
    let mut facts = facts_of(alloc, block)?;
    let Some(order) = order_of(alloc, facts.as_mut_slice())? else {
        return Ok(None);
    };
    let swaps = swaps_to(alloc, block.lines.as_slice(), order.as_slice())?;
    Ok(Some(swaps))
}

/// For each block the lines that change places with the next ones, one after another. None where nothing is to change.
///
/// # Errors
///
/// Only where memory was refused.
pub fn choose(alloc: Global, function: &LFunc) -> Result<Option<Vec<Seq<usize>>>, AllocError> {
    let blocks = function.code.blocks.as_slice();
    let mut plan = Vec::with_capacity(alloc, blocks.len())?;
    let mut is_any = false;
    for block in blocks {
        match swaps_of(alloc, block)? {
            Some(swaps) => {
                is_any = true;
                plan.push(Seq::from_vec(swaps))?;
            }
            None => plan.push(Seq::new(alloc))?,
        }
    }
    if is_any { Ok(Some(plan)) } else { Ok(None) }
}
