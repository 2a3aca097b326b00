//! Ways through a function on which nothing is called. The back end makes them without a frame (`frame_ways`), if what has values on them stands in registers that
//! callees needn't keep. So what lives over a later call stands in such a register up to there, and is moved to its own place behind these ways.
//!
//! `fronts` finds their blocks, `holders` gives registers of the machine to what has a value in them, and `leaving` writes that, with the moves.
use crate::bare_ways::fronts::fronts_of;
use crate::bare_ways::holders::holders_of;
use crate::bare_ways::leaving::leave;
use crate::places::candidates::Ground;
use crate::splitting::splitter::Splitter;
use std::alloc::{AllocError, Global};
use vcode::Location;

pub(crate) mod fronts;
pub(crate) mod holders;
pub(crate) mod leaving;

/// Keeps ways without a call that return free of slots and of registers that callees keep, if that can be paid for. The list has the place of each register.
pub(crate) fn keep_bare(
    alloc: Global,
    splitter: &mut Splitter,
    list: &[Location],
    ground: Ground,
) -> Result<(), AllocError> {
    if ground.facts.demands.calls.is_empty() {
        return Ok(());
    }
    let Some(fronts) = fronts_of(alloc, list, ground)? else {
        return Ok(());
    };
    match holders_of(alloc, list, ground, &fronts)? {
        Some(holders) => leave(alloc, splitter, ground, &fronts, &holders),
        None => Ok(()),
    }
}
