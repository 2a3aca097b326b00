//! Whether blocks make no call but within the stack that is left to them, and no function a value but one that may be called by pointer.
ghost use Rattle.std.specs.Prelude.{◌≡◌};
ghost use Rattle.std.specs.List.{list_all};
ghost use Rattle.obj_link.specs.Prelude.{program};
ghost use Rattle.stack_bound.specs.Bounds.{args_fit, block_fits, call_bound, end_fits, inst_fits, jump_fits, named_bound, operand_fits, phi_fits};

use crate::bounds::{Bounds, at_most, bound_of, pointed_bound};
use crate::values::operand_fits;
use il_ast::{Arg, Block, Inst, Jump, Lined, Phi, PhiArg, Target, Val};
use obj_link::Linked;

fn named_bound(bounds: &Bounds, target: Option<Target>) -> Option<u64>
    ensures { result ≡ named_bound bounds.now target }
{
    match target {
        Some(Target::Code(callee)) => bound_of(bounds, callee),
        Some(Target::Object(_)) | None => Some(0),
    }
}

/// The bound of a call of this operand.
fn call_bound(bounds: &Bounds, names: &[Target], callee: Val, count: usize) -> Option<u64>
    ensures { result ≡ call_bound bounds.now names.now callee count }
{
    match callee {
        Val::Int(_) => Some(0),
        Val::Temp(_) => pointed_bound(bounds, count),
        Val::Global(symbol) => named_bound(bounds, names.get(symbol.number()).copied()),
    }
}

fn args_fit(linked: &Linked<'_>, bounds: &Bounds, names: &[Target], args: &[Arg]) -> bool
    ensures { result ≡ args_fit (program linked.now) bounds.now names.now args.now }
{
    args.iter()
        .all(|arg| operand_fits(linked, bounds, names, arg.value))
}

fn inst_fits(linked: &Linked<'_>, bounds: &Bounds, names: &[Target], left: u64, inst: &Inst) -> bool
    ensures { result ≡ inst_fits (program linked.now) bounds.now names.now left inst.now }
{
    match inst {
        Inst::Unary { value, .. } | Inst::Store { value, .. } => {
            operand_fits(linked, bounds, names, *value)
        }
        Inst::Binary { .. } | Inst::Alloc { .. } | Inst::Blit { .. } => true,
        Inst::Call { callee, args, .. } => {
            let bound = call_bound(bounds, names, *callee, args.len());
            at_most(bound, Some(left)) && args_fit(linked, bounds, names, args.as_slice())
        }
    }
}

fn insts_fit(
    linked: &Linked<'_>,
    bounds: &Bounds,
    names: &[Target],
    left: u64,
    insts: &[Lined<Inst>],
) -> bool
    ensures { result ≡ list_all (λ i. inst_fits (program linked.now) bounds.now names.now left i.item) insts.now }
{
    insts
        .iter()
        .all(|inst| inst_fits(linked, bounds, names, left, &inst.item))
}

fn phi_fits(linked: &Linked<'_>, bounds: &Bounds, names: &[Target], args: &[PhiArg]) -> bool
    ensures { result ≡ list_all (λ a. operand_fits (program linked.now) bounds.now names.now a.value) args.now }
{
    args.iter()
        .all(|arg| operand_fits(linked, bounds, names, arg.value))
}

fn phis_fit(linked: &Linked<'_>, bounds: &Bounds, names: &[Target], phis: &[Phi]) -> bool
    ensures { result ≡ list_all (phi_fits (program linked.now) bounds.now names.now) phis.now }
{
    phis.iter()
        .all(|phi| phi_fits(linked, bounds, names, phi.args.as_slice()))
}

fn jump_fits(linked: &Linked<'_>, bounds: &Bounds, names: &[Target], jump: Jump) -> bool
    ensures { result ≡ jump_fits (program linked.now) bounds.now names.now jump }
{
    match jump {
        Jump::Return(Some(value)) => operand_fits(linked, bounds, names, value),
        Jump::Return(None) | Jump::Goto(_) | Jump::Branch { .. } | Jump::Halt => true,
    }
}

fn end_fits(
    linked: &Linked<'_>,
    bounds: &Bounds,
    names: &[Target],
    jump: &Option<Lined<Jump>>,
) -> bool
    ensures { result ≡ end_fits (program linked.now) bounds.now names.now jump.now }
{
    match jump {
        Some(jump) => jump_fits(linked, bounds, names, jump.item),
        None => true,
    }
}

fn block_fits(
    linked: &Linked<'_>,
    bounds: &Bounds,
    names: &[Target],
    left: u64,
    block: &Block,
) -> bool
    ensures { result ≡ block_fits (program linked.now) bounds.now names.now left block.now }
{
    phis_fit(linked, bounds, names, block.phis.as_slice())
        && (insts_fit(linked, bounds, names, left, block.insts.as_slice())
            && end_fits(linked, bounds, names, &block.jump))
}

/// Whether all blocks do so.
pub(crate) fn blocks_fit(
    linked: &Linked<'_>,
    bounds: &Bounds,
    names: &[Target],
    left: u64,
    blocks: &[Block],
) -> bool
    ensures { result ≡ list_all (block_fits (program linked.now) bounds.now names.now left) blocks.now }
{
    blocks
        .iter()
        .all(|block| block_fits(linked, bounds, names, left, block))
}
