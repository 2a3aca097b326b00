//! Bounds on the stack.
ghost use Rattle.std.specs.Prelude.{◌≡◌};
ghost use Rattle.stack_bound.specs.Bounds.{at_most, bound_of, pointed_bound};

use il_ast::{Callee, Seq};

/// Bounds on the bytes of stack that calls take, each with what the callee calls. Where there is none, nothing is claimed.
#[derive(Drop)]
pub struct Bounds {
    /// for each function of a program, by its number
    pub functions: Seq<Option<u64>>,
    /// for calls by pointer, by how many arguments they have
    pub pointed: Seq<Option<u64>>,
}

/// The bound of a call of a function.
pub fn bound_of(bounds: &Bounds, callee: Callee) -> Option<u64>
    ensures { result ≡ bound_of bounds.now callee }
{
    match callee {
        Callee::Defined(function) => *bounds.functions.as_slice().get(function)?,
        Callee::SystemWrite | Callee::SystemExit => Some(0),
    }
}

/// The bound of a call by pointer with so many arguments.
pub(crate) fn pointed_bound(bounds: &Bounds, count: usize) -> Option<u64>
    ensures { result ≡ pointed_bound bounds.now count }
{
    *bounds.pointed.as_slice().get(count)?
}

/// Whether a bound is at most another; one that is missing is above all.
pub(crate) fn at_most(bound: Option<u64>, most: Option<u64>) -> bool
    ensures { result ≡ at_most bound most }
{
    match most {
        None => true,
        Some(most) => match bound {
            None => false,
            Some(bound) => bound <= most,
        },
    }
}
