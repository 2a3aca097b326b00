//! The moves before each point.
ghost use Rattle.std.specs.Prelude.{◌≡◌, true, IfOk};
ghost use Rattle.std.specs.List.{list_all};
ghost use Rattle.vcode.specs.Prelude.{is_place};
ghost use Rattle.regalloc.specs.Scanned.{are_between};

use crate::splitting::splits::{Move, Way, moves_at};
use crate::written::points::{own_place, room_place};
use certificates::Transfer;
use il_ast::Seq;
use std::alloc::{AllocError, Global};
use vcode::Location;

/// Adds the move, if both its places are there.
fn push_move(
    transfers: &mut Seq<Transfer>,
    list: &[Location],
    registers: u32,
    one: &Move,
) -> Result<(), AllocError>
    requires list { list_all (is_place registers) list.now ≡ true }
    requires between { are_between registers transfers.old ≡ true }
    ensures { are_between registers transfers.new ≡ true }
{
    let slot = own_place(list, registers, one.register);
    let machine = room_place(registers, one.room);
    match (slot, machine, one.way) {
        (Some(slot), Some(machine), Way::Save) => transfers.push(Transfer {
            from: machine,
            to: slot,
        }),
        (Some(slot), Some(machine), Way::Load) => transfers.push(Transfer {
            from: slot,
            to: machine,
        }),
        _ => Ok(()),
    }
}

/// The moves before each of so many points.
pub(crate) fn all_moves(
    alloc: Global,
    list: &[Location],
    registers: u32,
    moves: &[Move],
    points: usize,
) -> Result<Seq<Seq<Transfer>>, AllocError>
    requires { list_all (is_place registers) list.now ≡ true }
    ensures { IfOk result (λ lists. list_all (are_between registers) lists ≡ true) }
{
    let mut lists = Seq::from_vec(Vec::with_capacity(alloc, points)?);
    for point in 0..points {
        let mut transfers = Seq::new(alloc);
        for one in moves_at(moves, point) {
            push_move(&mut transfers, list, registers, one)?;
        }
        lists.push(transfers)?;
    }
    Ok(lists)
}
