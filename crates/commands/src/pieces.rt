//! Programs that are run piece by piece, so that what they put out goes out while they run.
ghost use Rattle.std.specs.Prelude.{◌≡◌, ◌<◌, ◌≤◌, [], IfOk, IfErr, OnErr};
ghost use Rattle.rv_machine.specs.Entries.{IsDecoded, view};
ghost use Rattle.il_interp.specs.Machine.{comes_to, held};
ghost use Rattle.commands.specs.declared.failure.Failure.TheVariants.{Output};
ghost use Rattle.commands.specs.declared.pieces.TheConstants.{PIECE};
ghost use Rattle.commands.specs.Pieces.{RunBreaks, RunSends, SendingFails, Sent};

use crate::failure::Failure;
use crate::files::put_out;
use crate::refusal::Refusal;
use il_ast::End;
use il_interp::pieces::Running;
use rv_machine::{DecodedCode, Machine, Ram, Stop};
use shell::Sink;
use std::alloc::Global;

/// After so many instructions or turns at most, what they put out goes out. It is held until then, so that a program that puts out a byte at a time asks the system
/// seldom.
const PIECE: u64 = 2_048;

/// Where a piece puts out more than so many bytes, the next one is shorter.
const MUCH: usize = 65_536;

/// How long the piece is behind one that put out so much: an eighth of that one where it put out much, else twice as long, but never longer than a first piece.
fn next_piece(piece: u64, held: usize) -> u64
    ensures some { 0 < result }
    ensures few { result ≤ PIECE }
{
    let next = if held > MUCH {
        piece / 8
    } else {
        piece.saturating_mul(2)
    };
    next.clamp(1, PIECE)
}

/// Runs a machine for at most `limit` instructions, and puts out what it puts out, piece by piece. `code` was decoded of it.
///
/// # Errors
///
/// `Failure::Output` where the sink fails; then the machine isn't run any further.
pub(crate) fn run_machine<'a, R: Ram, O: Sink>(
    machine: &mut Machine<R>,
    code: &DecodedCode,
    limit: u64,
    out: &mut O,
) -> Result<Stop, Failure<'a>>
    requires { IsDecoded (view ⟦<R as Ram>⟧ machine.old).allows (view ⟦<R as Ram>⟧ machine.old).bytes code.now }
    ensures runs { IfOk result (RunSends R.refuses limit (view ⟦<R as Ram>⟧ machine.old) (O.told out.old) (O.told out.new)) }
    ensures fault { IfErr result (λ e. e ≡ Output) }
    ensures broke { OnErr result (RunBreaks R.refuses limit (view ⟦<R as Ram>⟧ machine.old) (O.told out.old) (O.told out.new)) }
{
    let mut left = limit;
    let mut piece = PIECE;
    while left > piece {
        let stop = machine.run_piece(code, piece);
        put_out(out, machine.output())?;
        match stop {
            Stop::Limit => {}
            stop => return Ok(stop),
        }
        left -= piece;
        piece = next_piece(piece, machine.output().len());
        machine.clear_output();
    }
    let stop = machine.run_piece(code, left);
    put_out(out, machine.output())?;
    Ok(stop)
}

/// Goes on with a run of the interpreter for at most so many turns, and puts out what it puts out, piece by piece.
///
/// # Errors
///
/// `Failure::Output` where the sink fails, and a refusal where memory was refused; then the run isn't gone on with.
pub(crate) fn run_turns<'a, O: Sink>(
    alloc: Global,
    running: &mut Running<'_>,
    turns: u64,
    out: &mut O,
) -> Result<End, Failure<'a>>
    requires { held running.old ≡ [] }
    ensures sent { IfOk result (Sent (comes_to running.old) turns (O.told out.old) (O.told out.new)) }
    ensures fails { IfErr result (SendingFails (comes_to running.old) turns (O.told out.old) (O.told out.new)) }
{
    let mut left = turns;
    let mut piece = PIECE;
    while left > piece {
        let end = match running.go_on(alloc, piece) {
            Ok(end) => end,
            Err(_) => return Err(Failure::Refused(Refusal::Memory)),
        };
        put_out(out, running.output())?;
        match end {
            Some(end) => return Ok(end),
            None => {}
        }
        left -= piece;
        piece = next_piece(piece, running.output().len());
        running.clear_output();
    }
    let end = match running.go_on(alloc, left) {
        Ok(end) => end,
        Err(_) => return Err(Failure::Refused(Refusal::Memory)),
    };
    put_out(out, running.output())?;
    Ok(end.unwrap_or(End::Turns))
}
