//! What the words of a process ask for, done.
ghost use Rattle.std.specs.Prelude.{◌≡◌, map, drop, IfOk, IfErr, string_bytes};
ghost use Rattle.std.specs.IoError.{error_kind};
ghost use Rattle.std.specs.Process.{exit_status};
ghost use Rattle.commands.specs.Exits.{Exits, IsUnbegun, words_failure};

use crate::command::{command, report};
use crate::failure::Failure;
use crate::refusal::Refusal;
use crate::words::words_of;
use regalloc::strategy::Strategy;
use shell::{Disk, Sink};
use std::alloc::Global;
use std::io;
use std::io::ErrorKind;
use std::process::ExitCode;

/// Why the words can't be had: memory was refused, or one of them is no text.
fn words_failure<'a>(kind: ErrorKind) -> Failure<'a>
    ensures { result ≡ words_failure kind }
{
    match kind {
        ErrorKind::OutOfMemory => Failure::Memory,
        _ => Failure::Refused(Refusal::Words),
    }
}

/// Does what the words after the first ask for, and answers the status.
#[tactic(auto, unfolding(crate::specs::Exits::Exits))]
fn perform<D: Disk, O: Sink, E: Sink>(
    alloc: Global,
    args: &[String],
    allocator: &mut dyn Strategy,
    disk: &mut D,
    out: &mut O,
    err: &mut E,
) -> u8
    ensures { Exits (map string_bytes (drop 1 args.now))
        (record { disk = D.told disk.old; out = O.told out.old; err = E.told err.old })
        (record { disk = D.told disk.new; out = O.told out.new; err = E.told err.new })
        result }
{
    match words_of(alloc, args) {
        Ok(words) => command(alloc, words.as_slice(), allocator, disk, out, err),
        Err(_) => report(Failure::Memory, err),
    }
}

/// The same, of words that may not be had.
#[tactic(auto, unfolding(crate::specs::Exits::Exits))]
fn status<D: Disk, O: Sink, E: Sink>(
    alloc: Global,
    args: io::Result<Vec<String>>,
    allocator: &mut dyn Strategy,
    disk: &mut D,
    out: &mut O,
    err: &mut E,
) -> u8
    ensures done { IfOk args (λ words. Exits (map string_bytes (drop 1 words.items))
        (record { disk = D.told disk.old; out = O.told out.old; err = E.told err.old })
        (record { disk = D.told disk.new; out = O.told out.new; err = E.told err.new })
        result) }
    ensures refused { IfErr args (λ error. IsUnbegun (words_failure (error_kind error))
        (record { disk = D.told disk.old; out = O.told out.old; err = E.told err.old })
        (record { disk = D.told disk.new; out = O.told out.new; err = E.told err.new })
        result) }
{
    match args {
        Ok(args) => perform(alloc, args.as_slice(), allocator, disk, out, err),
        Err(error) => report(words_failure(error.kind()), err),
    }
}

/// The status as the process's, uncut.
fn exit_code(status: u8) -> ExitCode
    ensures { exit_status result ≡ status }
{
    ExitCode::from(status)
}

/// Does what the words of a process ask for, of which the first is the program's name, and ends with the status of that.
///
/// Where the words can't be had, nothing is done but that a line on `err` says why: memory was refused, or one of them is no text.
pub fn invoke<D: Disk, O: Sink, E: Sink>(
    alloc: Global,
    args: io::Result<Vec<String>>,
    allocator: &mut dyn Strategy,
    disk: &mut D,
    out: &mut O,
    err: &mut E,
) -> ExitCode
    ensures done { IfOk args (λ words. Exits (map string_bytes (drop 1 words.items))
        (record { disk = D.told disk.old; out = O.told out.old; err = E.told err.old })
        (record { disk = D.told disk.new; out = O.told out.new; err = E.told err.new })
        (exit_status result)) }
    ensures refused { IfErr args (λ error. IsUnbegun (words_failure (error_kind error))
        (record { disk = D.told disk.old; out = O.told out.old; err = E.told err.old })
        (record { disk = D.told disk.new; out = O.told out.new; err = E.told err.new })
        (exit_status result)) }
{
    exit_code(status(alloc, args, allocator, disk, out, err))
}
