//! Functions whose lines stand in another order.
ghost use Rattle.std.specs.Prelude.{◌≡◌, IfOk};
ghost use Rattle.il_ast.specs.Prelude.{Keeps};
ghost use Rattle.vcode.specs.Prelude.{location_code, code_weight};
ghost use Rattle.scheduling.specs.Independent.{scheduled};

use crate::choice::choose;
use crate::swaps::scheduled;
use il_ast::Seq;
use std::alloc::{AllocError, Global};
use vcode::LFunc;

/// The function by a plan, which has for each block numbers of lines: one after another, the line there and the next one change places, where they may. What
/// the plan asks besides isn't done. It takes time as the text and the plan are long.
///
/// # Errors
///
/// Only where memory was refused.
pub fn apply(alloc: Global, function: &LFunc, plan: &[Seq<usize>]) -> Result<LFunc, AllocError>
    ensures code { IfOk result (λ l. l.code ≡ scheduled plan.now function.now.code) }
    ensures slots { IfOk result (λ l. l.slots ≡ function.now.slots) }
    ensures kept { IfOk result (λ l. Keeps (location_code function.now) (location_code l)) }
    ensures light { IfOk result (λ l. code_weight l.code ≡ code_weight function.now.code) }
{
    let code = scheduled(alloc, &function.code, plan)?;
    Ok(LFunc {
        code,
        slots: function.slots,
    })
}

/// The function with lines moved to where less has to be waited for.
///
/// # Errors
///
/// Only where memory was refused.
pub fn schedule(alloc: Global, function: LFunc) -> Result<LFunc, AllocError>
    ensures slots { IfOk result (λ l. l.slots ≡ function.slots) }
    ensures kept { IfOk result (λ l. Keeps (location_code function) (location_code l)) }
    ensures light { IfOk result (λ l. code_weight l.code ≡ code_weight function.code) }
{
    match choose(alloc, &function)? {
        Some(plan) => apply(alloc, &function, plan.as_slice()),
        None => Ok(function),
    }
}
