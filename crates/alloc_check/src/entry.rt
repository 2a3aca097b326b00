//! Whether a certificate finds on entry what the first block asks for: which parameter each place holds.
ghost use Rattle.std.specs.Prelude.{◌≡◌, ◌||◌, not};
ghost use Rattle.alloc_check.specs.Prelude.{nobody, owns, starts_at, own_params, is_param, params_placed, entry_holds, entry_in, owner_put};

use crate::says::{begins_at, is_same};
use certificates::{Certificate, Equality};
use vcode::{Code, Destination, Location};

/// Whose value a place holds after a register is put, there or elsewhere.
fn owner_put(owner: Option<u32>, is_there: bool, register: u32) -> Option<u32>
    ensures { result ≡ owner_put is_there register owner }
{
    if is_there {
        return Some(register);
    }
    match owner {
        Some(other) => { if other == register { None } else { owner } }
        None => None,
    }
}

/// The parameter that a place holds.
fn owner_at(params: &[Destination<u32>], places: &[Location], place: Location) -> Option<u32>
    ensures { result ≡ own_params params.now places.now nobody place }
{
    let mut owner = None;
    for (k, param) in params.iter().enumerate() {
        match places.get(k) {
            Some(at) => owner = owner_put(owner, is_same(place, *at), param.place),
            None => return owner,
        }
    }
    owner
}

fn is_param(params: &[Destination<u32>], register: u32) -> bool
    ensures { result ≡ is_param params.now register }
{
    params.iter().any(|param| register == param.place)
}

/// Whether the place holds the parameter, if the register is one. Other registers have no value yet.
fn is_entered(params: &[Destination<u32>], places: &[Location], equality: Equality) -> bool
    ensures { result ≡ (owns (own_params params.now places.now nobody) equality.place equality.register || not (is_param params.now equality.register)) }
{
    match owner_at(params, places, equality.place) {
        Some(owner) => owner == equality.register || !is_param(params, equality.register),
        None => !is_param(params, equality.register),
    }
}

fn all_entered(params: &[Destination<u32>], places: &[Location], starts: &[Equality]) -> bool
    ensures { result ≡ entry_holds params.now starts.now (own_params params.now places.now nobody) }
{
    starts
        .iter()
        .all(|equality| is_entered(params, places, *equality))
}

/// Whether each parameter has a place.
#[tactic(auto, using(crate::proofs::Entering::enough_placed))]
fn are_placed(params: &[Destination<u32>], places: &[Location]) -> bool
    ensures { result ≡ params_placed params.now places.now }
{
    params.len() <= places.len()
}

/// Whether each parameter has a place, and the first block finds what it asks for.
#[tactic(auto, using(crate::proofs::Starting::both_enter))]
pub(crate) fn is_entered_right(code: &Code<u32>, certificate: &Certificate) -> bool
    ensures { result ≡ entry_in code.now certificate.now }
{
    let params = code.params.as_slice();
    let places = certificate.params.as_slice();
    are_placed(params, places)
        && all_entered(params, places, certificate.everywhere.as_slice())
        && all_entered(params, places, begins_at(certificate, 0))
}
