//! Whether a certificate is whole: as long as the code asks, of registers and places that there are, and of no register twice for one point.
ghost use Rattle.std.specs.Prelude.{◌≡◌, ◌<◌, ◌^◌, true};
ghost use Rattle.std.specs.List.{list_all};
ghost use Rattle.certificates.specs.Listed.{has};
ghost use Rattle.alloc_check.specs.Prelude.{end_point, names_once, has_lengths, is_whole};

use crate::fits::{all_exist, equalities_exist};
use crate::points::are_points;
use certificates::{Certificate, Equality};
use il_ast::Seq;
use vcode::{Code, VFunc};

fn has(equalities: &[Equality], register: u32) -> bool
    ensures { result ≡ has equalities.now register }
{
    equalities
        .iter()
        .any(|equality| equality.register == register)
}

fn names_once(equalities: &[Equality]) -> bool
    ensures { result ≡ names_once equalities.now }
{
    for (k, equality) in equalities.iter().enumerate() {
        if has(&equalities[k + 1..], equality.register) {
            return false;
        }
    }
    true
}

fn all_once(lists: &[Seq<Equality>]) -> bool
    ensures { result ≡ list_all names_once lists.now }
{
    lists
        .iter()
        .all(|equalities| names_once(equalities.as_slice()))
}

fn has_lengths(code: &Code<u32>, certificate: &Certificate) -> bool
    ensures lengths { result ≡ has_lengths code.now certificate.now }
    ensures few { result ≡ true → end_point 0 code.now.blocks < 2 ^ 64 }
{
    let blocks = code.blocks.as_slice();
    certificate.params.len() == code.params.len()
        && certificate.starts.len() == blocks.len()
        && are_points(blocks, certificate.moves.len())
        && certificate.moves.len() == certificate.places.len()
}

/// Whether each list of the certificate is as long as the function asks, all registers and places that it knows of exist, and no point has two places for a
/// register.
pub(crate) fn is_whole(function: &VFunc, certificate: &Certificate) -> bool
    ensures whole { result ≡ is_whole function.now certificate.now }
    ensures few { result ≡ true → end_point 0 function.now.code.blocks < 2 ^ 64 }
{
    has_lengths(&function.code, certificate)
        && all_exist(function.registers, certificate.everywhere.as_slice())
        && equalities_exist(function.registers, certificate.starts.as_slice())
        && equalities_exist(function.registers, certificate.places.as_slice())
        && all_once(certificate.places.as_slice())
}
