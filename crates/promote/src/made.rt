//! Whether a function makes blocks of memory.
ghost use Rattle.std.specs.Prelude.{◌≡◌, false};
ghost use Rattle.std.specs.List.{list_any};
ghost use Rattle.il_types.specs.Prelude.{is_alloc};
ghost use Rattle.promote.specs.Uses.{makes, makes_any, IsPromoted};

use il_ast::{Block, Func, Inst, Lined};

fn is_alloc(inst: &Inst) -> bool
    ensures { result ≡ is_alloc inst.now }
{
    match inst {
        Inst::Alloc { .. } => true,
        _ => false,
    }
}

fn makes(insts: &[Lined<Inst>]) -> bool
    ensures { result ≡ makes insts.now }
{
    for inst in insts {
        if is_alloc(&inst.item) {
            return true;
        }
    }
    false
}

fn makes_any(blocks: &[Block]) -> bool
    ensures { result ≡ makes_any blocks.now }
{
    for block in blocks {
        if makes(block.insts.as_slice()) {
            return true;
        }
    }
    false
}

/// Whether the function has an `alloc`. One that has none is promoted as it is.
#[tactic(auto, using(crate::proofs::Unmade::stays))]
pub fn has_alloc(function: &Func) -> bool
    ensures { result ≡ false → IsPromoted function.now function.now }
{
    makes_any(function.blocks.as_slice())
}
