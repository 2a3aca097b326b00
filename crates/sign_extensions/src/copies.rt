//! Functions in which extensions of whole words are copies.
ghost use Rattle.std.specs.Prelude.{◌≡◌, IfOk, IfSome, IsTrue};
ghost use Rattle.il_ast.specs.Prelude.{Keeps};
ghost use Rattle.vcode.specs.Prelude.{virtual_code};
ghost use Rattle.sign_extensions.specs.Whole.{are_closed, IsCopied};

use crate::lines::blocks;
use crate::marks::whole_registers;
use std::alloc::{AllocError, Global};
use vcode::VFunc;

fn with_copies(alloc: Global, function: &VFunc, marks: &[bool]) -> Result<VFunc, AllocError>
    requires { IsTrue (are_closed marks.now function.now.code) }
    ensures kept { IfOk result (λ w. Keeps (virtual_code function.now) (virtual_code w)) }
    ensures copied { IfOk result (λ w. IsCopied function.now w) }
{
    let blocks = blocks(alloc, marks, function.code.blocks.as_slice())?;
    let made = function.with_blocks(alloc, function.registers, blocks)?;
    Ok(made)
}

fn copied(alloc: Global, function: &VFunc) -> Result<VFunc, AllocError>
    ensures kept { IfOk result (λ w. Keeps (virtual_code function.now) (virtual_code w)) }
    ensures copied { IfOk result (λ w. IsCopied function.now w) }
{
    let marks = whole_registers(alloc, &function.code, function.registers)?;
    with_copies(alloc, function, marks.as_slice())
}

/// The function, in which each extension to a word of a register that holds whole words alone is a copy, and each word that is passed from such a register is claimed to
/// stand extended. It takes time and memory as the text is long.
///
/// # Errors
///
/// Only where memory was refused.
pub fn copy_whole_words(alloc: Global, function: &VFunc) -> Result<Option<VFunc>, AllocError>
    ensures kept { IfOk result (λ o. IfSome o (λ w. Keeps (virtual_code function.now) (virtual_code w))) }
    ensures copied { IfOk result (λ o. IfSome o (λ w. IsCopied function.now w)) }
{
    let made = copied(alloc, function)?;
    Ok(Some(made))
}
