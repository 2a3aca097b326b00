//! Functions with other blocks.
ghost use Rattle.std.specs.Prelude.{◌≡◌, ◌<◌, IfOk};
ghost use Rattle.il_ast.specs.Prelude.{Keeps};
ghost use Rattle.vcode.specs.Prelude.{PLACES, Becomes, with_these, virtual_code};

use crate::code::{Block, Code};
use crate::function::VFunc;
use il_ast::Seq;
use std::alloc::{AllocError, Global};

impl VFunc {
    /// The function with these blocks in the place of its own, over so many registers. A pass ends by it, and owes no more than what it asks: the blocks are code
    /// that there may be, and keep what the function did.
    ///
    /// # Errors
    ///
    /// Only where memory was refused.
    pub fn with_blocks(
        &self,
        alloc: Global,
        registers: u32,
        blocks: Seq<Block<u32>>,
    ) -> Result<VFunc, AllocError>
        requires few { registers < PLACES }
        requires becomes { Becomes self.now registers blocks }
        ensures kept { IfOk result (λ w. Keeps (virtual_code self.now) (virtual_code w)) }
        ensures code { IfOk result (λ w. w.code ≡ with_these self.now.code blocks) }
        ensures registers { IfOk result (λ w. w.registers ≡ registers) }
    {
        let params = self.code.params.try_clone(alloc)?;
        Ok(VFunc {
            code: Code {
                result: self.code.result,
                params,
                blocks,
            },
            registers,
        })
    }
}
