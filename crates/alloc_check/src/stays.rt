//! Whether what holds at the start of every block holds at the end of one too: only what the block may have changed is looked at.
ghost use Rattle.std.specs.Prelude.{◌≡◌, ◌<◌, ◌+◌, ◌^◌, ◌&&◌};
ghost use Rattle.alloc_check.specs.Prelude.{nobody, known, nowhere, standing, owns, is_at, are_apart, jump_point, place_by, own_of, IsFirst, place_stays, register_stays, moves_stay, starts_stay, write_stays, line_stays, lines_stay, machine_stays, block_stays, moves_before};

use crate::first::MACHINE;
use crate::says::{begins_at, is_same, moves_at, moves_before, place_by, places_at};
use crate::table::{Ground, OwnerTable};
use certificates::{Certificate, Equality, Transfer};
use cfg_live::numbering::next_point;
use cfg_live::uses::line_writes;
use vcode::{Line, Location};

/// Whether a place holds the register's value.
pub(crate) fn owns(table: &OwnerTable, place: Location, register: u32) -> bool
    ensures { result ≡ owns (own_of table.now) place register }
{
    match table.owner(place) {
        Some(owner) => owner == register,
        None => false,
    }
}

fn place_stays(table: &OwnerTable, ground: &Ground, place: Location) -> bool
    requires { IsFirst ground.now.registers ground.now.everywhere.now table.now.first }
    ensures { result ≡ place_stays ground.now.everywhere.now (own_of table.now) place }
{
    match table.first_owner(ground, place) {
        Some(register) => owns(table, place, register),
        None => true,
    }
}

fn register_stays(table: &OwnerTable, ground: &Ground, register: u32) -> bool
    requires { IsFirst ground.now.registers ground.now.everywhere.now table.now.first }
    ensures { result ≡ register_stays ground.now.everywhere.now (own_of table.now) register }
{
    match table.first_place(ground, register) {
        Some(place) => owns(table, place, register),
        None => true,
    }
}

fn moves_stay(table: &OwnerTable, ground: &Ground, moves: &[Transfer]) -> bool
    requires { IsFirst ground.now.registers ground.now.everywhere.now table.now.first }
    ensures { result ≡ moves_stay ground.now.everywhere.now (own_of table.now) moves.now }
{
    moves.iter().all(|one| place_stays(table, ground, one.to))
}

fn starts_stay(table: &OwnerTable, ground: &Ground, begins: &[Equality]) -> bool
    requires { IsFirst ground.now.registers ground.now.everywhere.now table.now.first }
    ensures { result ≡ starts_stay ground.now.everywhere.now (own_of table.now) begins.now }
{
    begins
        .iter()
        .all(|equality| place_stays(table, ground, equality.place))
}

fn write_stays(
    table: &OwnerTable,
    ground: &Ground,
    places: &[Equality],
    written: Option<u32>,
) -> bool
    requires { IsFirst ground.now.registers ground.now.everywhere.now table.now.first }
    ensures { result ≡ write_stays ground.now.everywhere.now (own_of table.now) (place_by places.now) written }
{
    match written {
        Some(register) => {
            place_stays(table, ground, place_by(places, register))
                && register_stays(table, ground, register)
        }
        None => true,
    }
}

fn line_stays(
    table: &OwnerTable,
    ground: &Ground,
    certificate: &Certificate,
    at: usize,
    line: &Line<u32>,
) -> bool
    requires { IsFirst ground.now.registers ground.now.everywhere.now table.now.first }
    ensures { result ≡ line_stays ground.now.everywhere.now certificate.now at (own_of table.now) line.now }
{
    moves_stay(table, ground, moves_before(certificate, at, line))
        && write_stays(table, ground, places_at(certificate, at), line_writes(line))
}

fn lines_stay(
    table: &OwnerTable,
    ground: &Ground,
    certificate: &Certificate,
    first: usize,
    lines: &[Line<u32>],
) -> bool
    requires first { IsFirst ground.now.registers ground.now.everywhere.now table.now.first }
    requires room { jump_point first lines.now + 1 < 2 ^ 64 }
    ensures { result ≡ lines_stay ground.now.everywhere.now certificate.now first (own_of table.now) lines.now }
{
    let mut at = first;
    for line in lines {
        if !line_stays(table, ground, certificate, at, line) {
            return false;
        }
        at = next_point(at, line);
    }
    moves_stay(table, ground, moves_at(certificate, at))
}

fn machine_stays(table: &OwnerTable, ground: &Ground) -> bool
    requires { IsFirst ground.now.registers ground.now.everywhere.now table.now.first }
    ensures { result ≡ machine_stays ground.now.everywhere.now (own_of table.now) 28 }
{
    let mut all = true;
    for register in 0..28u8 {
        all = all && place_stays(table, ground, Location::Register(register));
    }
    all
}

/// Whether all holds at the end of a block, with these lines from that point on, that holds at the start of every block.
pub(crate) fn block_stays(
    table: &OwnerTable,
    ground: &Ground,
    certificate: &Certificate,
    first: usize,
    index: usize,
    lines: &[Line<u32>],
) -> bool
    requires first { IsFirst ground.now.registers ground.now.everywhere.now table.now.first }
    requires room { jump_point first lines.now + 1 < 2 ^ 64 }
    ensures { result ≡ block_stays ground.now.everywhere.now certificate.now first index (own_of table.now) lines.now }
{
    ground.everywhere.is_empty()
        || machine_stays(table, ground)
            && starts_stay(table, ground, begins_at(certificate, index))
            && lines_stay(table, ground, certificate, first, lines)
}

fn is_apart(table: &OwnerTable, ground: &Ground, equality: Equality) -> bool
    requires first { IsFirst ground.now.registers ground.now.everywhere.now table.now.first }
    requires own { own_of table.now ≡ known ground.now.everywhere.now nobody }
    ensures { result ≡ (owns (known ground.now.everywhere.now nobody) equality.place equality.register && is_at equality.place (standing ground.now.everywhere.now nowhere equality.register)) }
{
    owns(table, equality.place, equality.register)
        && match table.first_place(ground, equality.register) {
            Some(place) => is_same(place, equality.place),
            None => false,
        }
}

/// Whether no register has two places everywhere, and no place two registers. The table is one in which no block began yet.
pub(crate) fn are_apart(table: &OwnerTable, ground: &Ground) -> bool
    requires first { IsFirst ground.now.registers ground.now.everywhere.now table.now.first }
    requires own { own_of table.now ≡ known ground.now.everywhere.now nobody }
    ensures { result ≡ are_apart ground.now.everywhere.now }
{
    ground
        .everywhere
        .iter()
        .all(|equality| is_apart(table, ground, *equality))
}
