//! The bounds of a program, and how much stack it takes.
ghost use Rattle.std.specs.Prelude.{◌≡◌, ◌≤◌, IfOk, IfSome};
ghost use Rattle.il_ast.specs.declared.limits.TheConstants.{STACK_ROOM};
ghost use Rattle.il_ast.specs.declared.program.Program.{Program};
ghost use Rattle.il_ast.specs.declared.value.Callee.TheVariants.{Defined};
ghost use Rattle.obj_link.specs.Prelude.{program};
ghost use Rattle.stack_bound.specs.Bounds.{AreBounds, bound_of, IsEnough, StaysInStack};

use crate::bounds::{Bounds, bound_of};
use crate::check::are_bounds;
use crate::graph::Graph;
use crate::guess::guess;
use il_ast::{Callee, Seq};
use obj_link::Linked;
use std::alloc::{AllocError, Global};

/// No bound for anything, which is right of every program.
fn none(alloc: Global) -> Bounds
    ensures { (p : Program) → AreBounds p result }
{
    Bounds {
        functions: Seq::new(alloc),
        pointed: Seq::new(alloc),
    }
}

/// Bounds of the calls of a program that are right. A function has one unless it may come to a cycle of calls, where a call by pointer may mean each function with
/// as many parameters whose name stands where it may become a value.
///
/// # Errors
///
/// Only where memory was refused.
pub fn bounds_of(alloc: Global, linked: &Linked<'_>, graph: &Graph) -> Result<Bounds, AllocError>
    ensures { IfOk result (AreBounds (program linked.now)) }
{
    let bounds = guess(alloc, linked, graph)?;
    if are_bounds(linked, &bounds) {
        Ok(bounds)
    } else {
        Ok(none(alloc))
    }
}

/// The most bytes of stack that a program takes, whatever its argument words and however long it runs: the bound of `main`, if it has one. Where it is at most
/// [`STACK_ROOM`], no run of the program ends for want of stack.
pub fn greatest_use(linked: &Linked<'_>, bounds: &Bounds) -> Option<u64>
    requires { AreBounds (program linked.now) bounds.now }
    ensures is { result ≡ bound_of bounds.now (Defined linked.now.main) }
    ensures enough { IfSome result (IsEnough (program linked.now)) }
    ensures stays { IfSome result (λ n. n ≤ STACK_ROOM → StaysInStack (program linked.now)) }
{
    bound_of(bounds, Callee::Defined(linked.main))
}
