//! Functions in which locals are temporaries.
ghost use Rattle.std.specs.Prelude.{IfOk};
ghost use Rattle.promote.specs.Uses.{IsPromoted};

use crate::copying::{copied, copied_names};
use crate::mentions::mentions;
use crate::rewriting::promoted_blocks;
use crate::standing::standings;
use il_ast::Func;
use std::alloc::{AllocError, Global};

/// The function with every temporary promoted that can be.
///
/// Loads and stores of the promoted temporaries are copies and extensions, and their `alloc`s copies of 0; nothing else changes. The time is linear in the
/// function. Want of memory is the only error.
pub fn promote(alloc: Global, function: &Func) -> Result<Func, AllocError>
    ensures { IfOk result (λ now. IsPromoted function.now now) }
{
    let found = mentions(alloc, function)?;
    let table = standings(alloc, found.as_slice())?;
    let params = copied(alloc, function.params.as_slice())?;
    let blocks = promoted_blocks(alloc, table.as_slice(), function.blocks.as_slice())?;
    let temps = copied_names(alloc, function.temps.as_slice())?;
    let labels = copied_names(alloc, function.labels.as_slice())?;
    Ok(Func {
        line: function.line,
        exported: function.exported,
        name: function.name,
        result: function.result,
        params,
        blocks,
        temps,
        labels,
    })
}
