//! Whether bounds are right.
ghost use Rattle.std.specs.Prelude.{◌≡◌, map};
ghost use Rattle.il_ast.specs.Prelude.{need};
ghost use Rattle.obj_link.specs.Prelude.{program, shown};
ghost use Rattle.stack_bound.specs.Bounds.{are_bounds, function_fits, functions_fit, left_of};

use crate::blocks::blocks_fit;
use crate::bounds::{Bounds, bound_of};
use crate::data::objects_fit;
use crate::names::names_in;
use il_ast::{Callee, Func, InText};
use il_types::cost::capped_need;
use obj_link::Linked;

/// What a bound leaves to calls once the function has what it needs; none where it is too little for that.
fn left_of(function: &Func, bound: u64) -> Option<u64>
    ensures { result ≡ left_of (need function.now) bound }
{
    let need = capped_need(function);
    if need < u64::MAX && need <= bound {
        Some(bound - need)
    } else {
        None
    }
}

fn function_fits(
    linked: &Linked<'_>,
    bounds: &Bounds,
    function: &InText<&Func>,
    bound: Option<u64>,
) -> bool
    ensures { result ≡ function_fits (program linked.now) bounds.now (shown function.now) bound }
{
    let Some(bound) = bound else {
        return true;
    };
    let names = names_in(linked, function.text);
    match left_of(function.item, bound) {
        Some(left) => blocks_fit(linked, bounds, names, left, function.item.blocks.as_slice()),
        None => false,
    }
}

fn functions_fit(linked: &Linked<'_>, bounds: &Bounds, functions: &[InText<&Func>]) -> bool
    ensures { result ≡ functions_fit (program linked.now) bounds.now 0 (map shown functions.now) }
{
    for number in 0..functions.len() {
        let bound = bound_of(bounds, Callee::Defined(number));
        if !function_fits(linked, bounds, &functions[number], bound) {
            return false;
        }
    }
    true
}

/// Whether bounds are right: the bound of each function has room for what the function needs and, beyond that, for each call that it makes; and the bound of a
/// function that may become a value is at most that of calls by pointer with as many arguments as it has parameters. It looks once at all of the program.
#[tactic(auto, unfolding(crate::specs::Bounds::are_bounds))]
pub fn are_bounds(linked: &Linked<'_>, bounds: &Bounds) -> bool
    ensures { result ≡ are_bounds (program linked.now) bounds.now }
{
    functions_fit(linked, bounds, linked.functions.as_slice())
        && objects_fit(linked, bounds, linked.objects.as_slice())
}
