//! Which values of a register get a name of their own: a guess, on which nothing that is proved rests. A *web* is all that lines write to a register and some reader may
//! see together. The webs of a register that is written more than once are found (`webs`) and named (`naming`): one keeps the register's name, that with which the
//! function begins where there is one, and each other gets a register that the function didn't have.
mod forest;
mod naming;
mod webs;

use crate::plan::Plan;
use naming::named;
use std::alloc::{AllocError, Global};
use vcode::VFunc;
use vcode::limits::PLACES;
use webs::{Webs, count_uses, find_webs};

/// A plan in which each web has a name of its own; none where all registers keep theirs, or where there would be too many.
///
/// # Errors
///
/// Only where memory was refused.
pub fn choose_names(alloc: Global, function: &VFunc) -> Result<Option<Plan>, AllocError> {
    let uses = count_uses(alloc, function)?;
    if uses.iter().all(|one| one.is_plain()) {
        return Ok(None);
    }
    let mut webs = Webs::new(alloc, uses)?;
    if !find_webs(alloc, &mut webs, function)?
        || !webs.may_need_more(function.code.params.as_slice())
    {
        return Ok(None);
    }
    let plan = named(alloc, webs, function)?;
    let count = plan.plain.len().saturating_add(plan.owners.len());
    Ok(if plan.owners.is_empty() || PLACES as usize <= count {
        None
    } else {
        Some(plan)
    })
}
