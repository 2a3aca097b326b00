//! A function by a plan.
ghost use Rattle.std.specs.Prelude.{◌≡◌, ◌&&◌, true, false, nat_lt, IsTrue, IfOk, IfSome, IfNone};
ghost use Rattle.std.specs.List.{list_all};
ghost use Rattle.il_ast.specs.Prelude.{Keeps};
ghost use Rattle.vcode.specs.Prelude.{virtual_code, is_paid};
ghost use Rattle.constant_placement.specs.Held.{with_blocks, with_constant, is_safe, is_right};

use crate::hoisting::plan::Plan;
use crate::hoisting::replace::with_blocks;
use crate::hoisting::right::{are_paid, fits};
use il_ast::Seq;
use std::alloc::{AllocError, Global};
use vcode::{Block, VFunc};

/// The function with these blocks, which are its own by the plan.
fn with_these(
    alloc: Global,
    function: &VFunc,
    plan: &Plan,
    blocks: Vec<Block<u32>>,
) -> Result<VFunc, AllocError>
    requires low { nat_lt plan.now.register function.now.registers ≡ true }
    requires safe { is_safe plan.now function.now.code ≡ true }
    requires paid { list_all is_paid blocks.items ≡ true }
    requires made { blocks.items ≡ with_blocks plan.now 0 function.now.code.blocks }
    ensures kept { IfOk result (λ w. Keeps (virtual_code function.now) (virtual_code w)) }
    ensures code { IfOk result (λ w. w.code ≡ with_constant plan.now function.now.code) }
    ensures registers { IfOk result (λ w. w.registers ≡ function.now.registers) }
{
    let made = function.with_blocks(alloc, function.registers, Seq::from_vec(blocks))?;
    Ok(made)
}

/// The function by a plan: the plan's register is set in front of the blocks that hold its constant, and read there in its place. None where the plan isn't right:
/// where the register is none of the function's, or the function names it; where a block that holds the constant can be reached without the register having it; or
/// where the ticks of a block would no longer pay for it. It takes time and memory as the text is long.
///
/// # Errors
///
/// Only where memory was refused.
pub fn with_constant(
    alloc: Global,
    function: &VFunc,
    plan: &Plan,
) -> Result<Option<VFunc>, AllocError>
    ensures none { IfOk result (λ o. IfNone o (is_right plan.now function.now ≡ false)) }
    ensures right { IfOk result (λ o. IfSome o (λ w. is_right plan.now function.now ≡ true)) }
    ensures kept { IfOk result (λ o. IfSome o (λ w. Keeps (virtual_code function.now) (virtual_code w))) }
    ensures code { IfOk result (λ o. IfSome o (λ w. w.code ≡ with_constant plan.now function.now.code)) }
    ensures registers { IfOk result (λ o. IfSome o (λ w. w.registers ≡ function.now.registers)) }
{
    if !fits(plan, function) {
        return Ok(None);
    }
    let blocks = with_blocks(alloc, plan, function.code.blocks.as_slice())?;
    if !are_paid(blocks.as_slice()) {
        return Ok(None);
    }
    let made = with_these(alloc, function, plan, blocks)?;
    Ok(Some(made))
}
