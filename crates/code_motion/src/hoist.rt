//! Functions with computations in front of their loops and addresses.
ghost use Rattle.std.specs.Prelude.{◌≡◌, ◌≤◌, ◌<◌, IfOk, IfSome};
ghost use Rattle.vcode.specs.declared.limits.TheConstants.{PLACES};
ghost use Rattle.il_ast.specs.Prelude.{Keeps};
ghost use Rattle.vcode.specs.Prelude.{virtual_code};

use crate::choice::choose::choose_plan;
use crate::longer::{Registers, all_longer};
use crate::plan::Plan;
use il_ast::Seq;
use std::alloc::{AllocError, Global};
use vcode::VFunc;
use vcode::limits::PLACES;

/// How many registers there are with those that are chosen, as far as a function may have them.
fn more(registers: u32, chosen: u32) -> u32
    requires { registers < PLACES }
    ensures least { registers ≤ result }
    ensures few { result < PLACES }
{
    if registers <= chosen && chosen < PLACES {
        chosen
    } else {
        registers
    }
}

/// The function by a plan: with its computations in the blocks, each where its line names registers that there are then, writes one that the function didn't have, and is paid
/// for by the ticks of its block. It takes time and memory as the text and the plan are long.
///
/// # Errors
///
/// Only where memory was refused.
pub fn apply(alloc: Global, function: &VFunc, plan: &Plan) -> Result<VFunc, AllocError>
    ensures { IfOk result (λ w. Keeps (virtual_code function.now) (virtual_code w)) }
{
    let registers = Registers {
        before: function.registers,
        after: more(function.registers, plan.registers),
    };
    let blocks = all_longer(
        alloc,
        registers,
        plan.blocks.as_slice(),
        function.code.blocks.as_slice(),
    )?;
    let made = function.with_blocks(alloc, registers.after, Seq::from_vec(blocks))?;
    Ok(made)
}

/// The function with computations whose operands its loops don't write done in front of them too, and sums of registers in front of addresses, in registers of their own:
/// those that a guess chooses.
///
/// # Errors
///
/// Only where memory was refused.
pub fn hoist_invariants(alloc: Global, function: &VFunc) -> Result<Option<VFunc>, AllocError>
    ensures { IfOk result (λ o. IfSome o (λ w. Keeps (virtual_code function.now) (virtual_code w))) }
{
    match choose_plan(alloc, function)? {
        Some(plan) => {
            let made = apply(alloc, function, &plan)?;
            Ok(Some(made))
        }
        None => Ok(None),
    }
}
