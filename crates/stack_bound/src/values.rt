//! Functions that may become values, and so be called by pointer.
ghost use Rattle.std.specs.Prelude.{◌≡◌};
ghost use Rattle.obj_link.specs.Prelude.{program};
ghost use Rattle.stack_bound.specs.Bounds.{arity, callee_fits, name_fits, operand_fits};

use crate::bounds::{Bounds, at_most, bound_of, pointed_bound};
use il_ast::{Callee, Target, Val};
use obj_link::Linked;

/// How many parameters a function has.
#[tactic(auto, using(crate::proofs::Every::mapped))]
pub(crate) fn arity(linked: &Linked<'_>, function: usize) -> usize
    ensures { result ≡ arity (program linked.now) function }
{
    match linked.functions.as_slice().get(function) {
        Some(function) => function.item.params.len(),
        None => 0,
    }
}

fn callee_fits(linked: &Linked<'_>, bounds: &Bounds, callee: Callee) -> bool
    ensures { result ≡ callee_fits (program linked.now) bounds.now callee }
{
    match callee {
        Callee::Defined(function) => {
            let most = pointed_bound(bounds, arity(linked, function));
            at_most(bound_of(bounds, callee), most)
        }
        Callee::SystemWrite | Callee::SystemExit => true,
    }
}

/// Whether what a name means may be called by pointer.
pub(crate) fn name_fits(linked: &Linked<'_>, bounds: &Bounds, target: Option<Target>) -> bool
    ensures { result ≡ name_fits (program linked.now) bounds.now target }
{
    match target {
        Some(Target::Code(callee)) => callee_fits(linked, bounds, callee),
        Some(Target::Object(_)) | None => true,
    }
}

/// Whether an operand that may become a value may be called by pointer, where the names of its text mean this.
pub(crate) fn operand_fits(
    linked: &Linked<'_>,
    bounds: &Bounds,
    names: &[Target],
    value: Val,
) -> bool
    ensures { result ≡ operand_fits (program linked.now) bounds.now names.now value }
{
    match value {
        Val::Global(symbol) => {
            let target = names.get(symbol.number()).copied();
            name_fits(linked, bounds, target)
        }
        Val::Int(_) | Val::Temp(_) => true,
    }
}
