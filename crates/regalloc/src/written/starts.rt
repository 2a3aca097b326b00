//! The places that parameters come in, and those of the registers that are live where blocks begin.
ghost use Rattle.std.specs.Prelude.{◌≡◌, true, IfOk};
ghost use Rattle.std.specs.List.{list_all};
ghost use Rattle.vcode.specs.Prelude.{is_place};
ghost use Rattle.regalloc.specs.Scanned.{are_placed};

use crate::intervals::starts::Starts;
use crate::splitting::splits::{Begin, Entry, begin_at};
use crate::written::points::{own_place, place_in, push_at, room_place};
use certificates::Equality;
use il_ast::Seq;
use std::alloc::{AllocError, Global};
use vcode::{Destination, Location};

/// The places that the parameters come in: the registers of the machine of their entries, or else their own places.
pub(crate) fn placed_params(
    alloc: Global,
    list: &[Location],
    registers: u32,
    entries: &[Entry],
    from: &[Destination<u32>],
) -> Result<Seq<Location>, AllocError>
    requires { list_all (is_place registers) list.now ≡ true }
    ensures { IfOk result (λ places. list_all (is_place registers) places ≡ true) }
{
    let mut params = Seq::from_vec(Vec::with_capacity(alloc, from.len())?);
    for param in from {
        let entry = entries.iter().find(|entry| entry.register == param.place);
        let room = entry.map(|entry| entry.room);
        if let Some(place) = place_in(list, registers, room, param.place) {
            params.push(place)?;
        }
    }
    Ok(params)
}

/// Adds where a live register is.
fn push_live(
    equalities: &mut Seq<Equality>,
    list: &[Location],
    registers: u32,
    register: u32,
    begin: Option<&Begin>,
) -> Result<(), AllocError>
    requires list { list_all (is_place registers) list.now ≡ true }
    requires placed { are_placed registers equalities.old ≡ true }
    ensures { are_placed registers equalities.new ≡ true }
{
    if let Some(begin) = begin {
        let place = room_place(registers, begin.room);
        push_at(equalities, registers, register, place)?;
        if !begin.is_saved {
            return Ok(());
        }
    }
    let place = own_place(list, registers, register);
    push_at(equalities, registers, register, place)
}

/// Where the live registers are at the start of each of so many blocks.
pub(crate) fn placed_starts(
    alloc: Global,
    list: &[Location],
    registers: u32,
    begins: &[Begin],
    from: &Starts,
    blocks: usize,
) -> Result<Seq<Seq<Equality>>, AllocError>
    requires { list_all (is_place registers) list.now ≡ true }
    ensures { IfOk result (λ starts. list_all (are_placed registers) starts ≡ true) }
{
    let mut starts = Seq::from_vec(Vec::with_capacity(alloc, blocks)?);
    for block in 0..blocks {
        let live = from.of(block);
        let mut equalities = Seq::from_vec(Vec::with_capacity(alloc, live.len())?);
        for start in live {
            let register = start.register;
            let begin = begin_at(begins, block, register);
            push_live(&mut equalities, list, registers, register, begin)?;
        }
        starts.push(equalities)?;
    }
    Ok(starts)
}

/// Where the registers are that have values throughout.
pub(crate) fn placed_everywhere(
    alloc: Global,
    list: &[Location],
    registers: u32,
    starts: &Starts,
) -> Result<Seq<Equality>, AllocError>
    requires { list_all (is_place registers) list.now ≡ true }
    ensures { IfOk result (λ equalities. are_placed registers equalities ≡ true) }
{
    let mut equalities = Seq::new(alloc);
    for register in 0..registers {
        if starts.is_throughout(register) {
            let place = own_place(list, registers, register);
            push_at(&mut equalities, registers, register, place)?;
        }
    }
    Ok(equalities)
}
