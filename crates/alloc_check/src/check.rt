//! Whether a certificate is sound: each line finds what it reads, and each jump what its targets ask for.
ghost use Rattle.std.specs.Prelude.{◌≡◌, ◌<◌, ◌+◌, ◌^◌, true, IfOk};
ghost use Rattle.std.specs.List.{list_all};
ghost use Rattle.alloc_check.specs.Prelude.{owns, own_kept, operand_held, args_held, all_hold, where_held, next_point, jump_point, place_by, end_point, exists_in, own_of, IsFirst, IsTable, put_in, moved_in, known_in, block_stays, targets_in, receives_in, makes_in, line_in, point_in, lines_in, jump_in, block_in, blocks_in, sound_in};

use crate::entry::is_entered_right;
use crate::says::{begins_at, moves_at, place_by, places_at};
use crate::stays::{are_apart, block_stays, owns};
use crate::table::{Ground, OwnerTable};
use certificates::{Certificate, Equality, Transfer};
use cfg_live::numbering::{jump_point, next_point};
use std::alloc::{AllocError, Global};
use vcode::{Argument, Block, Destination, Jump, Line, Operand, VFunc};

fn held(table: &OwnerTable, places: &[Equality], value: &Operand<u32>) -> bool
    ensures { result ≡ operand_held (own_of table.now) (place_by places.now) value.now }
{
    match value {
        Operand::At(register) => owns(table, place_by(places, *register), *register),
        Operand::Number(_) => true,
        Operand::Name(_) => true,
    }
}

fn args_held(table: &OwnerTable, places: &[Equality], args: &[Argument<u32>]) -> bool
    ensures { result ≡ args_held (own_of table.now) (place_by places.now) args.now }
{
    args.iter().all(|arg| held(table, places, &arg.value))
}

fn all_hold(table: &OwnerTable, equalities: &[Equality]) -> bool
    ensures { result ≡ all_hold (own_of table.now) equalities.now }
{
    equalities
        .iter()
        .all(|equality| owns(table, equality.place, equality.register))
}

fn put(
    table: &mut OwnerTable,
    ground: &Ground,
    time: usize,
    places: &[Equality],
    register: u32,
) -> bool
    requires table { IsTable ground.now.registers ground.now.everywhere.now time table.old }
    requires room { time + 1 < 2 ^ 64 }
    ensures own { where_held result (own_of table.new) ≡ put_in ground.now.registers (place_by places.now register) register (own_of table.old) }
    ensures table { IsTable ground.now.registers ground.now.everywhere.now (time + 1) table.new }
{
    table.put(ground, place_by(places, register), register, time)
}

fn call(
    table: &mut OwnerTable,
    ground: &Ground,
    time: usize,
    places: &[Equality],
    to: &Option<Destination<u32>>,
) -> bool
    requires table { IsTable ground.now.registers ground.now.everywhere.now time table.old }
    requires room { time + 1 < 2 ^ 64 }
    ensures own { where_held result (own_of table.new) ≡ receives_in ground.now.registers (place_by places.now) to.now (own_kept (own_of table.old)) }
    ensures table { IsTable ground.now.registers ground.now.everywhere.now (time + 1) table.new }
{
    table.call(ground, time);
    match to {
        Some(result) => put(table, ground, time, places, result.place),
        None => true,
    }
}

fn make(
    table: &mut OwnerTable,
    ground: &Ground,
    time: usize,
    places: &[Equality],
    to: &Option<u32>,
) -> bool
    requires table { IsTable ground.now.registers ground.now.everywhere.now time table.old }
    requires room { time + 1 < 2 ^ 64 }
    ensures own { where_held result (own_of table.new) ≡ makes_in ground.now.registers (place_by places.now) to.now (own_of table.old) }
    ensures table { IsTable ground.now.registers ground.now.everywhere.now (time + 1) table.new }
{
    match to {
        Some(register) => put(table, ground, time, places, *register),
        None => true,
    }
}

fn line(
    table: &mut OwnerTable,
    ground: &Ground,
    time: usize,
    places: &[Equality],
    line: &Line<u32>,
) -> bool
    requires table { IsTable ground.now.registers ground.now.everywhere.now time table.old }
    requires room { time + 1 < 2 ^ 64 }
    ensures own { where_held result (own_of table.new) ≡ line_in ground.now.registers (own_of table.old) (place_by places.now) line.now }
    ensures table { IsTable ground.now.registers ground.now.everywhere.now (time + 1) table.new }
{
    match line {
        Line::Tick { .. } => true,
        Line::Set { to, value } => {
            held(table, places, value) && put(table, ground, time, places, *to)
        }
        Line::Operate {
            to,
            left,
            right,
            ..
        } => {
            held(table, places, left)
                && held(table, places, right)
                && put(table, ground, time, places, *to)
        }
        Line::Load { to, at, .. } => {
            held(table, places, &at.base) && put(table, ground, time, places, *to)
        }
        Line::Store { value, at, .. } => {
            held(table, places, value) && held(table, places, &at.base)
        }
        Line::Alloc { to, .. } => make(table, ground, time, places, to),
        Line::Blit { from, to, .. } => held(table, places, from) && held(table, places, to),
        Line::Call { to, callee, args } => {
            held(table, places, callee)
                && args_held(table, places, args.as_slice())
                && call(table, ground, time, places, to)
        }
    }
}

fn transfers(table: &mut OwnerTable, ground: &Ground, time: usize, moves: &[Transfer]) -> bool
    requires { IsTable ground.now.registers ground.now.everywhere.now time table.old }
    ensures own { where_held result (own_of table.new) ≡ moved_in ground.now.registers moves.now (own_of table.old) }
    ensures table { IsTable ground.now.registers ground.now.everywhere.now time table.new }
{
    for transfer in moves {
        if !table.transfer(ground, *transfer, time) {
            return false;
        }
    }
    true
}

fn known(table: &mut OwnerTable, ground: &Ground, time: usize, equalities: &[Equality]) -> bool
    requires { IsTable ground.now.registers ground.now.everywhere.now time table.old }
    ensures own { where_held result (own_of table.new) ≡ known_in ground.now.registers equalities.now (own_of table.old) }
    ensures table { IsTable ground.now.registers ground.now.everywhere.now time table.new }
{
    for equality in equalities {
        if !table.also(ground, *equality, time) {
            return false;
        }
    }
    true
}

/// A line with the moves before it. A point's time is one more than its number.
fn point(
    table: &mut OwnerTable,
    certificate: &Certificate,
    ground: &Ground,
    at: usize,
    from: &Line<u32>,
) -> bool
    requires table { IsTable ground.now.registers ground.now.everywhere.now (at + 1) table.old }
    requires room { next_point at from.now + 1 < 2 ^ 64 }
    ensures own { where_held result (own_of table.new) ≡ point_in ground.now.registers certificate.now at (own_of table.old) from.now }
    ensures table { IsTable ground.now.registers ground.now.everywhere.now (next_point at from.now + 1) table.new }
{
    if let Line::Tick { .. } = from {
        return true;
    }
    transfers(table, ground, at + 1, moves_at(certificate, at))
        && line(table, ground, at + 1, places_at(certificate, at), from)
}

fn lines(
    table: &mut OwnerTable,
    certificate: &Certificate,
    ground: &Ground,
    first: usize,
    lines: &[Line<u32>],
) -> bool
    requires table { IsTable ground.now.registers ground.now.everywhere.now (first + 1) table.old }
    requires room { jump_point first lines.now + 1 < 2 ^ 64 }
    ensures own { where_held result (own_of table.new) ≡ lines_in ground.now.registers certificate.now first (own_of table.old) lines.now }
    ensures table { result ≡ true → IsTable ground.now.registers ground.now.everywhere.now (jump_point first lines.now + 1) table.new }
{
    let mut at = first;
    for from in lines {
        if !point(table, certificate, ground, at, from) {
            return false;
        }
        at = next_point(at, from);
    }
    true
}

/// Where in the code a block stands: its first point, and its number.
#[derive(Clone, Copy)]
struct Standing<'a> {
    first: usize,
    index: usize,
    block: &'a Block<u32>,
}

fn stays(table: &OwnerTable, certificate: &Certificate, ground: &Ground, at: &Standing) -> bool
    requires first { IsFirst ground.now.registers ground.now.everywhere.now table.now.first }
    requires room { jump_point at.now.first at.now.block.now.lines + 1 < 2 ^ 64 }
    ensures { result ≡ block_stays ground.now.everywhere.now certificate.now at.now.first at.now.index (own_of table.now) at.now.block.now.lines }
{
    let lines = at.block.lines.as_slice();
    block_stays(table, ground, certificate, at.first, at.index, lines)
}

fn targets(
    table: &OwnerTable,
    certificate: &Certificate,
    ground: &Ground,
    at: &Standing,
    places: &[Equality],
) -> bool
    requires first { IsFirst ground.now.registers ground.now.everywhere.now table.now.first }
    requires room { jump_point at.now.first at.now.block.now.lines + 1 < 2 ^ 64 }
    ensures { result ≡ targets_in certificate.now (block_stays ground.now.everywhere.now certificate.now at.now.first at.now.index (own_of table.now) at.now.block.now.lines) (own_of table.now) (place_by places.now) at.now.block.now.jump }
{
    match &at.block.jump {
        Jump::Goto(block) => {
            stays(table, certificate, ground, at) && all_hold(table, begins_at(certificate, *block))
        }
        Jump::Branch { on, met, otherwise } => {
            held(table, places, &on.left)
                && held(table, places, &on.right)
                && stays(table, certificate, ground, at)
                && all_hold(table, begins_at(certificate, *met))
                && all_hold(table, begins_at(certificate, *otherwise))
        }
        Jump::Return(None) => true,
        Jump::Return(Some(returned)) => held(table, places, &returned.value),
        Jump::Halt => true,
    }
}

fn jump(
    table: &mut OwnerTable,
    certificate: &Certificate,
    ground: &Ground,
    at: &Standing,
    point: usize,
) -> bool
    requires table { IsTable ground.now.registers ground.now.everywhere.now (point + 1) table.old }
    requires point { point ≡ jump_point at.now.first at.now.block.now.lines }
    requires room { jump_point at.now.first at.now.block.now.lines + 1 < 2 ^ 64 }
    ensures right { result ≡ jump_in ground.now.registers ground.now.everywhere.now certificate.now at.now.first at.now.index at.now.block.now (own_of table.old) }
    ensures table { IsTable ground.now.registers ground.now.everywhere.now (point + 1) table.new }
{
    transfers(table, ground, point + 1, moves_at(certificate, point))
        && targets(
            table,
            certificate,
            ground,
            at,
            places_at(certificate, point),
        )
}

fn block(table: &mut OwnerTable, certificate: &Certificate, ground: &Ground, at: &Standing) -> bool
    requires table { IsTable ground.now.registers ground.now.everywhere.now at.now.first table.old }
    requires room { jump_point at.now.first at.now.block.now.lines + 1 < 2 ^ 64 }
    ensures right { result ≡ block_in ground.now.registers ground.now.everywhere.now certificate.now at.now.first at.now.index at.now.block.now }
    ensures table { result ≡ true → IsTable ground.now.registers ground.now.everywhere.now (jump_point at.now.first at.now.block.now.lines + 1) table.new }
{
    table.begin(ground, at.first);
    let from = at.block.lines.as_slice();
    known(
        table,
        ground,
        at.first + 1,
        begins_at(certificate, at.index),
    ) && lines(table, certificate, ground, at.first, from)
        && jump(table, certificate, ground, at, jump_point(at.first, from))
}

fn blocks(
    table: &mut OwnerTable,
    certificate: &Certificate,
    ground: &Ground,
    blocks: &[Block<u32>],
) -> bool
    requires table { IsTable ground.now.registers ground.now.everywhere.now 0 table.old }
    requires room { end_point 0 blocks.now < 2 ^ 64 }
    ensures { result ≡ blocks_in ground.now.registers ground.now.everywhere.now certificate.now 0 0 blocks.now }
{
    let mut first = 0usize;
    for (index, from) in blocks.iter().enumerate() {
        let at = Standing {
            first,
            index,
            block: from,
        };
        if !block(table, certificate, ground, &at) {
            return false;
        }
        first = jump_point(first, from.lines.as_slice()) + 1;
    }
    true
}

/// Whether what holds everywhere is apart, and each line and each jump finds what it reads and what its targets ask for, as far as the table has room for
/// places and registers.
///
/// # Errors
///
/// Only where memory was refused.
pub(crate) fn is_sound(
    alloc: Global,
    function: &VFunc,
    certificate: &Certificate,
) -> Result<bool, AllocError>
    requires exist { list_all (exists_in function.now.registers) certificate.now.everywhere ≡ true }
    requires few { end_point 0 function.now.code.blocks < 2 ^ 64 }
    ensures { IfOk result (λ b. b ≡ sound_in function.now.registers function.now.code certificate.now) }
{
    let ground = Ground {
        registers: function.registers,
        everywhere: certificate.everywhere.as_slice(),
    };
    let mut table = OwnerTable::new(alloc, &ground)?;
    if !are_apart(&table, &ground) || !is_entered_right(&function.code, certificate) {
        return Ok(false);
    }
    let from = function.code.blocks.as_slice();
    Ok(blocks(&mut table, certificate, &ground, from))
}
