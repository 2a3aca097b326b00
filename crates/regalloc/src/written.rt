//! The certificate of places and splits: `points` has the places at each point, `moves` the moves before it, and `starts` the places of parameters and where blocks
//! begin.
ghost use Rattle.std.specs.Prelude.{◌≡◌, true, IfOk};
ghost use Rattle.std.specs.List.{list_all};
ghost use Rattle.vcode.specs.Prelude.{is_place};
ghost use Rattle.regalloc.specs.Scanned.{IsScanned};

use crate::intervals::facts::Facts;
use crate::splitting::splits::Splits;
use crate::written::moves::all_moves;
use crate::written::points::all_places;
use crate::written::starts::{placed_everywhere, placed_params, placed_starts};
use certificates::Certificate;
use std::alloc::{AllocError, Global};
use vcode::{Location, VFunc};

pub(crate) mod moves;
pub(crate) mod points;
pub(crate) mod starts;

/// The certificate that has each register at its place, but where it is split, with the moves for that; where a block begins it names the live registers alone, and
/// everywhere those that have values throughout.
pub(crate) fn written(
    alloc: Global,
    function: &VFunc,
    facts: &Facts,
    list: &[Location],
    splits: &Splits,
) -> Result<Certificate, AllocError>
    requires { list_all (is_place function.now.registers) list.now ≡ true }
    ensures { IfOk result (λ c. IsScanned function.now.registers c) }
{
    let registers = function.registers;
    let code = &function.code;
    let starts = &facts.starts;
    let points = facts.text.points();
    Ok(Certificate {
        params: placed_params(
            alloc,
            list,
            registers,
            &splits.entries,
            code.params.as_slice(),
        )?,
        everywhere: placed_everywhere(alloc, list, registers, starts)?,
        starts: placed_starts(
            alloc,
            list,
            registers,
            &splits.begins,
            starts,
            code.blocks.len(),
        )?,
        moves: all_moves(alloc, list, registers, &splits.moves, points)?,
        places: all_places(
            alloc,
            list,
            registers,
            &splits.stays,
            code.blocks.as_slice(),
            points,
        )?,
    })
}
