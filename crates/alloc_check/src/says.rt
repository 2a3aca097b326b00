//! What a certificate says of a point or a block; nothing where it is too short.
ghost use Rattle.std.specs.Prelude.{◌≡◌};
ghost use Rattle.vcode.specs.Prelude.{same_location};
ghost use Rattle.alloc_check.specs.Prelude.{moves_at, begins_at, places_at, place_by, moves_before};

use crate::placing::Placing;
use certificates::{Certificate, Equality, Transfer};
use vcode::{Line, Location};

/// The moves right before a point.
pub(crate) fn moves_at(certificate: &Certificate, point: usize) -> &[Transfer]
    ensures { result.now ≡ moves_at certificate.now point }
{
    match certificate.moves.as_slice().get(point) {
        Some(moves) => moves.as_slice(),
        None => &[],
    }
}

/// The moves before a line; a tick has none.
pub(crate) fn moves_before<'a>(
    certificate: &'a Certificate,
    at: usize,
    from: &Line<u32>,
) -> &'a [Transfer]
    ensures { result.now ≡ moves_before certificate.now at from.now }
{
    match from {
        Line::Tick { .. } => &[],
        _ => moves_at(certificate, at),
    }
}

/// What is said of a block's start, beside what holds at the start of every block.
pub(crate) fn begins_at(certificate: &Certificate, block: usize) -> &[Equality]
    ensures { result.now ≡ begins_at certificate.now block }
{
    match certificate.starts.as_slice().get(block) {
        Some(equalities) => equalities.as_slice(),
        None => &[],
    }
}

/// The places of the registers that a point names.
pub(crate) fn places_at(certificate: &Certificate, point: usize) -> &[Equality]
    ensures { result.now ≡ places_at certificate.now point }
{
    match certificate.places.as_slice().get(point) {
        Some(equalities) => equalities.as_slice(),
        None => &[],
    }
}

/// The place of the register by the first equality that names it; x0, which no code may name, where none does.
pub(crate) fn place_by(equalities: &[Equality], register: u32) -> Location
    ensures { result ≡ place_by equalities.now register }
{
    for equality in equalities {
        if equality.register == register {
            return equality.place;
        }
    }
    Location::Register(0)
}

/// Whether two places are one.
pub(crate) fn is_same(one: Location, other: Location) -> bool
    ensures { result ≡ same_location one other }
{
    match (one, other) {
        (Location::Register(a), Location::Register(b)) => a == b,
        (Location::Slot(a), Location::Slot(b)) => a == b,
        _ => false,
    }
}

/// Each register where these equalities have it.
#[derive(Clone, Copy)]
pub(crate) struct By<'a> {
    pub(crate) equalities: &'a [Equality],
}

impl<'a> Placing for By<'a> {
    ghost use Rattle.alloc_check.specs.Certified.{place_by};

    ghost layout = { λ s r. place_by s.equalities.now r };

    fn place(&self, register: u32) -> Location {
        place_by(self.equalities, register)
    }
}
