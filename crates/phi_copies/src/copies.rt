//! The copies that phis become.
ghost use Rattle.std.specs.Prelude.{◌≡◌, ℕ, ◌+◌, ◌≤◌, length, map, nat_eq, true, Some, IfOk, IfSome, OnOk, find};
ghost use Rattle.il_ast.specs.declared.limits.TheConstants.{FUNCTION_WEIGHT, TEMPORARIES};
ghost use Rattle.il_ast.specs.declared.block.PhiArg.{PhiArg as PhiArgOf};
ghost use Rattle.il_types.specs.Prelude.{are_distinct, are_all_distinct};
ghost use Rattle.phi_copies.specs.Copies.{AreCopies};
ghost use Rattle.phi_copies.specs.Source.{source};
ghost use Rattle.phi_copies.specs.Together.{wanted};

use crate::ending::Assignment;
use crate::map::{Map, first_number, phis_at, places_for};
use crate::together::in_order;
use il_ast::{Label, Phi, PhiArg, Seq, Val};
use il_types::arguments::{argument_at, search};
use std::alloc::{AllocError, Global};

/// The argument of a phi for the block of a label. It is looked for at two places first.
fn argument(args: &[PhiArg], from: Label, place: usize, other: usize) -> Option<PhiArg>
    requires { are_distinct args.now ≡ true }
    ensures { result ≡ find (λ (a : PhiArgOf). nat_eq a.from from) args.now }
{
    if let Some(arg) = argument_at(args, from, place) {
        return Some(arg);
    }
    if let Some(arg) = argument_at(args, from, other) {
        return Some(arg);
    }
    search(args, from)
}

/// What a phi takes from the block of a label; 0 where it has nothing for that, which the rules exclude.
fn source(from: Label, phi: &Phi, place: usize, other: usize) -> Val
    requires { are_distinct phi.now.args ≡ true }
    ensures { result ≡ source from phi.now }
{
    match argument(phi.args.as_slice(), from, place, other) {
        Some(arg) => arg.value,
        None => Val::Int(0),
    }
}

/// The place that is noted there, or 0.
fn noted(places: &[usize], at: usize) -> usize {
    match places.get(at) {
        Some(place) => *place,
        None => 0,
    }
}

/// What each phi takes from the block of a label. The places of the operands are the first or the last of those that are noted.
fn wanted(
    alloc: Global,
    from: Label,
    places: &[usize],
    phis: &[Phi],
) -> Result<Vec<Assignment>, AllocError>
    requires { are_all_distinct phis.now ≡ true }
    ensures { IfOk result (λ copies. copies.items ≡ map (wanted from) phis.now) }
{
    let mut copies = Vec::with_capacity(alloc, phis.len())?;
    let mut at: usize = 0;
    let mut last = places.len().saturating_sub(phis.len());
    for phi in phis {
        copies.push(Assignment {
            to: phi.to,
            value: source(from, phi, noted(places, at), noted(places, last)),
        })?;
        at = at.saturating_add(1);
        last = last.saturating_add(1);
    }
    Ok(copies)
}

/// The copies where the block at a place is entered from the block of a label.
pub fn entry_copies(
    alloc: Global,
    map: &Map<'_>,
    from: Label,
    place: usize,
) -> Result<Seq<Assignment>, AllocError>
    ensures { IfOk result (λ copies. AreCopies map.now.func.now from place copies) }
{
    let Some(number) = first_number(map, place) else {
        return Ok(Seq::new(alloc));
    };
    let copies = wanted(alloc, from, places_for(map, from), phis_at(map, place))?;
    Ok(Seq::from_vec(in_order(alloc, number, &copies)?))
}
