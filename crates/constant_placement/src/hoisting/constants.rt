//! Constants of loops.
ghost use Rattle.std.specs.Prelude.{IfOk, IfSome};
ghost use Rattle.il_ast.specs.Prelude.{Keeps};
ghost use Rattle.vcode.specs.Prelude.{virtual_code};

use crate::hoisting::choice::choose::choose_plans;
use crate::hoisting::hold::with_constant;
use crate::hoisting::plan::Plan;
use std::alloc::{AllocError, Global};
use vcode::VFunc;

/// What was made of the function, or the function itself, by one plan more, if that is right.
#[tactic(auto, using(il_ast::proofs::Passing::keeps_compose))]
fn by_plan(
    alloc: Global,
    function: &VFunc,
    held: Option<VFunc>,
    plan: &Plan,
) -> Result<Option<VFunc>, AllocError>
    requires { IfSome held (λ h. Keeps (virtual_code function.now) (virtual_code h)) }
    ensures { IfOk result (λ o. IfSome o (λ w. Keeps (virtual_code function.now) (virtual_code w))) }
{
    match held {
        Some(before) => match with_constant(alloc, &before, plan)? {
            Some(made) => Ok(Some(made)),
            None => Ok(Some(before)),
        },
        None => with_constant(alloc, function, plan),
    }
}

/// The function in which constants that take instructions in loops stand in registers that it names nowhere, set in front: those that save most by a guess, at most
/// twelve, in long functions six, and as many as there are such registers. A function without loops stays as it is. It takes time and memory as the text is long.
///
/// # Errors
///
/// Only where memory was refused.
pub fn hoist_constants(alloc: Global, function: &VFunc) -> Result<Option<VFunc>, AllocError>
    ensures { IfOk result (λ o. IfSome o (λ w. Keeps (virtual_code function.now) (virtual_code w))) }
{
    let plans = choose_plans(alloc, function)?;
    let mut held = None;
    for plan in plans.as_slice() {
        let made = by_plan(alloc, function, held, plan)?;
        held = made;
    }
    Ok(held)
}
