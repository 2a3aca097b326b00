//! Functions whose blocks set the numbers that they want.
ghost use Rattle.std.specs.Prelude.{◌≡◌, IfOk, IfSome};
ghost use Rattle.il_ast.specs.Prelude.{Keeps};
ghost use Rattle.vcode.specs.Prelude.{virtual_code};

use crate::sinking::choice::choose;
use crate::sinking::known::{Plan, plan_at};
use crate::sinking::with_sets::all_sunk;
use il_ast::Seq;
use std::alloc::{AllocError, Global};
use vcode::VFunc;

/// The function by these plans, one for each block; none where they aren't right: where the first block is to set something, or what is planned of a block isn't known on each
/// way there. It takes time and memory as the text and the plans are long.
///
/// # Errors
///
/// Only where memory was refused.
pub fn apply(alloc: Global, function: &VFunc, plans: &[Plan]) -> Result<Option<VFunc>, AllocError>
    ensures { IfOk result (λ o. IfSome o (λ w. Keeps (virtual_code function.now) (virtual_code w))) }
{
    if plan_at(plans, 0).len() != 0 {
        return Ok(None);
    }
    match all_sunk(
        alloc,
        function.registers,
        plans,
        function.code.blocks.as_slice(),
    )? {
        Some(blocks) => {
            let made = function.with_blocks(alloc, function.registers, Seq::from_vec(blocks))?;
            Ok(Some(made))
        }
        None => Ok(None),
    }
}

/// The function with registers that hold numbers set again where the blocks begin that want them, if they are set in front of a branch of which the other way
/// doesn't want them.
///
/// # Errors
///
/// Only where memory was refused.
pub fn sink_constants(alloc: Global, function: &VFunc) -> Result<Option<VFunc>, AllocError>
    ensures { IfOk result (λ o. IfSome o (λ w. Keeps (virtual_code function.now) (virtual_code w))) }
{
    match choose(alloc, function)? {
        Some(plans) => apply(alloc, function, plans.as_slice()),
        None => Ok(None),
    }
}
