//! The places of the registers that each point names.
ghost use Rattle.std.specs.Prelude.{◌≡◌, true, IfOk, IfSome};
ghost use Rattle.std.specs.List.{list_all};
ghost use Rattle.vcode.specs.Prelude.{is_place};
ghost use Rattle.regalloc.specs.Scanned.{are_placed};

use crate::linear_scan::machine_register;
use crate::splitting::splits::{Stay, stays_at};
use certificates::Equality;
use cfg_live::Reads;
use cfg_live::reads::{jump_reads, line_reads, register_of};
use cfg_live::uses::line_writes;
use il_ast::Seq;
use std::alloc::{AllocError, Global};
use vcode::{Block, Line, Location};

/// The register of the machine with that number, if there is one.
pub(crate) fn room_place(registers: u32, room: usize) -> Option<Location>
    ensures { IfSome result (λ q. is_place registers q ≡ true) }
{
    if room < 23 {
        Some(machine_register(registers, room as u8))
    } else {
        None
    }
}

/// The place that the list has for the register.
pub(crate) fn own_place(list: &[Location], registers: u32, register: u32) -> Option<Location>
    requires { list_all (is_place registers) list.now ≡ true }
    ensures { IfSome result (λ q. is_place registers q ≡ true) }
{
    list.get(register as usize).copied()
}

/// The place of the register: the register of the machine with that number, if it stands in one, or else its own.
pub(crate) fn place_in(
    list: &[Location],
    registers: u32,
    room: Option<usize>,
    register: u32,
) -> Option<Location>
    requires { list_all (is_place registers) list.now ≡ true }
    ensures { IfSome result (λ q. is_place registers q ≡ true) }
{
    match room {
        Some(room) => room_place(registers, room),
        None => own_place(list, registers, register),
    }
}

/// Adds that the register is at the place, if there is one.
pub(crate) fn push_at(
    equalities: &mut Seq<Equality>,
    registers: u32,
    register: u32,
    place: Option<Location>,
) -> Result<(), AllocError>
    requires place { IfSome place (λ q. is_place registers q ≡ true) }
    requires placed { are_placed registers equalities.old ≡ true }
    ensures { are_placed registers equalities.new ≡ true }
{
    match place {
        Some(place) => equalities.push(Equality { register, place }),
        None => Ok(()),
    }
}

/// Adds the place of the register that is read or written, if there is one and it isn't there already.
fn push_some(
    equalities: &mut Seq<Equality>,
    list: &[Location],
    registers: u32,
    stays: &[Stay],
    register: Option<u32>,
) -> Result<(), AllocError>
    requires list { list_all (is_place registers) list.now ≡ true }
    requires placed { are_placed registers equalities.old ≡ true }
    ensures { are_placed registers equalities.new ≡ true }
{
    let Some(register) = register else {
        return Ok(());
    };
    let mut named = equalities.as_slice().iter();
    if named.any(|equality| equality.register == register) {
        return Ok(());
    }
    let stay = stays.iter().find(|stay| stay.register == register);
    let place = place_in(list, registers, stay.map(|stay| stay.room), register);
    push_at(equalities, registers, register, place)
}

/// The places of the registers that a point names, each once.
fn places_of(
    alloc: Global,
    list: &[Location],
    registers: u32,
    stays: &[Stay],
    reads: Reads,
    written: Option<u32>,
) -> Result<Seq<Equality>, AllocError>
    requires { list_all (is_place registers) list.now ≡ true }
    ensures { IfOk result (λ es. are_placed registers es ≡ true) }
{
    let named = [reads.first, reads.second, written];
    let count = named.iter().filter(|one| one.is_some()).count();
    let most = reads.args.len().saturating_add(count);
    let mut equalities = Seq::from_vec(Vec::with_capacity(alloc, most)?);
    push_some(&mut equalities, list, registers, stays, reads.first)?;
    push_some(&mut equalities, list, registers, stays, reads.second)?;
    for arg in reads.args {
        let register = register_of(&arg.value);
        push_some(&mut equalities, list, registers, stays, register)?;
    }
    push_some(&mut equalities, list, registers, stays, written)?;
    Ok(equalities)
}

/// Adds the places of the next point.
fn push_point(
    alloc: Global,
    places: &mut Seq<Seq<Equality>>,
    list: &[Location],
    registers: u32,
    stays: &[Stay],
    reads: Reads,
    written: Option<u32>,
) -> Result<(), AllocError>
    requires list { list_all (is_place registers) list.now ≡ true }
    requires placed { list_all (are_placed registers) places.old ≡ true }
    ensures { list_all (are_placed registers) places.new ≡ true }
{
    let here = stays_at(stays, places.len());
    let named = places_of(alloc, list, registers, here, reads, written)?;
    places.push(named)
}

/// The places of all points, which are so many.
pub(crate) fn all_places(
    alloc: Global,
    list: &[Location],
    registers: u32,
    stays: &[Stay],
    blocks: &[Block<u32>],
    points: usize,
) -> Result<Seq<Seq<Equality>>, AllocError>
    requires { list_all (is_place registers) list.now ≡ true }
    ensures { IfOk result (λ places. list_all (are_placed registers) places ≡ true) }
{
    let mut places = Seq::from_vec(Vec::with_capacity(alloc, points)?);
    for block in blocks {
        for line in block.lines.as_slice() {
            if !matches!(line, Line::Tick { .. }) {
                let reads = line_reads(line);
                let to = line_writes(line);
                push_point(alloc, &mut places, list, registers, stays, reads, to)?;
            }
        }
        let reads = jump_reads(&block.jump);
        push_point(alloc, &mut places, list, registers, stays, reads, None)?;
    }
    Ok(places)
}
