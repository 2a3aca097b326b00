//! What the user asks for, done.
ghost use Rattle.std.specs.Prelude.{◌≡◌, true, false, map, IfOk, IfErr, OnErr};
ghost use Rattle.shell.specs.Sink.{Tells};
ghost use Rattle.commands.specs.Commands.{Done, Fails, Ends, IsExplained, IsHelp, IsMistake, IsShown, is_explained};
ghost use Rattle.commands.specs.Messages.{line_of};
ghost use Rattle.commands.specs.Pieces.{status_of};

use crate::build::build;
use crate::check::{check, tell_lines};
use crate::disassemble::disassemble;
use crate::explanation::Explanation;
use crate::failure::Failure;
use crate::files::put_out;
use crate::list_symbols::list_symbols;
use crate::run::{interpret, run};
use crate::show_stack::show_stack;
use crate::tell::{tell, tell_bytes};
use crate::tip::tip;
use crate::trace::trace;
use command_line::refusal::Text;
use command_line::{Command, Refusal, command_of};
use regalloc::strategy::Strategy;
use shell::{Disk, Sink};
use std::alloc::Global;

/// Writes the line of a failure, and answers its status. That standard error fails changes nothing.
pub fn report<E: Sink>(failure: Failure<'_>, err: &mut E) -> u8
    ensures status { result ≡ status_of failure.entry }
    ensures line { Tells (E.told err.old) (E.told err.new) (line_of failure.entry) }
{
    tell(&failure, err);
    failure.status()
}

/// The same, where no words are asked for.
#[tactic(auto, unfolding(crate::specs::Commands::IsExplained))]
fn report_alone<E: Sink>(failure: Failure<'_>, err: &mut E) -> u8
    ensures { IsExplained false failure.entry (E.told err.old) (E.told err.new) result }
{
    report(failure, err)
}

/// The same, with these lines behind it.
#[tactic(auto, unfolding(crate::specs::Commands::IsExplained))]
fn report_with<E: Sink>(failure: Failure<'_>, lines: &[String], err: &mut E) -> u8
    ensures { IsExplained true failure.entry (E.told err.old) (E.told err.new) result }
{
    let status = report(failure, err);
    tell_lines(lines, err);
    status
}

/// The same, with these lines behind it where the command asks for words.
fn report_explained<E: Sink>(
    failure: Failure<'_>,
    command: &Command<'_>,
    lines: &[String],
    err: &mut E,
) -> u8
    ensures { IsExplained (is_explained command.now) failure.entry (E.told err.old) (E.told err.new) result }
{
    if is_explained(command) {
        report_with(failure, lines, err)
    } else {
        report_alone(failure, err)
    }
}

/// Whether words are asked for where a command fails: by an option, or by a command that says more than its line.
fn is_explained(command: &Command<'_>) -> bool
    ensures { result ≡ is_explained command.now }
{
    match command {
        Command::Build { explain, .. }
        | Command::Run { explain, .. }
        | Command::Interpret { explain, .. }
        | Command::Disassemble { explain, .. } => *explain,
        Command::Check { .. }
        | Command::Trace { .. }
        | Command::Symbols { .. }
        | Command::Stack { .. } => true,
    }
}

/// Puts out a text of help.
#[tactic(auto, unfolding(crate::specs::Commands::IsHelp))]
fn show_help<O: Sink, E: Sink>(alloc: Global, text: &Text, out: &mut O, err: &mut E) -> u8
    ensures { IsHelp (O.told out.old) (O.told out.new) (E.told err.old) (E.told err.new) result }
{
    match format!(in alloc; "{text}") {
        Ok(text) => match put_out(out, text.as_bytes()) {
            Ok(()) => 0,
            Err(failure) => report(failure, err),
        },
        Err(_) => report(Failure::Memory, err),
    }
}

/// Writes what is wrong with the words to standard error, and what to type in their place.
#[tactic(auto, unfolding(crate::specs::Commands::IsMistake))]
fn show_mistake<E: Sink>(alloc: Global, text: &Text, words: &[&str], err: &mut E) -> u8
    ensures { IsMistake (E.told err.old) (E.told err.new) result }
{
    let tip = tip(words);
    match format!(in alloc; "{text}{tip}") {
        Ok(text) => {
            tell_bytes(text.as_bytes(), err);
            126
        }
        Err(_) => report(Failure::Memory, err),
    }
}

/// Shows a text of the command line for words.
fn show<O: Sink, E: Sink>(
    alloc: Global,
    refusal: Refusal,
    words: &[&str],
    out: &mut O,
    err: &mut E,
) -> u8
    ensures { IsShown refusal (O.told out.old) (O.told out.new) (E.told err.old) (E.told err.new) result }
{
    match refusal {
        Refusal::Help(text) => show_help(alloc, &text, out, err),
        Refusal::Mistake(text) => show_mistake(alloc, &text, words, err),
        Refusal::Memory => report(Failure::Memory, err),
    }
}

fn perform<'a, D: Disk, O: Sink, E: Sink>(
    alloc: Global,
    command: &Command<'a>,
    allocator: &mut dyn Strategy,
    disk: &mut D,
    out: &mut O,
    err: &mut E,
    explanation: &mut Explanation,
) -> Result<u8, Failure<'a>>
    ensures done { IfOk result (Done command.now
        (record { disk = D.told disk.old; out = O.told out.old; err = E.told err.old })
        (record { disk = D.told disk.new; out = O.told out.new; err = E.told err.new })) }
    ensures silent { OnErr result (E.told err.new ≡ E.told err.old) }
    ensures fails { IfErr result (Fails command.now (D.told disk.old) (D.told disk.new) (O.told out.old) (O.told out.new)) }
{
    match command {
        Command::Build {
            out: target,
            files,
            ..
        } => build(
            alloc,
            allocator,
            disk,
            *target,
            files.as_slice(),
            explanation,
        ),
        Command::Run {
            limit,
            file,
            words,
            ..
        } => run(
            alloc,
            disk,
            out,
            *limit,
            *file,
            words.as_slice(),
            explanation,
        ),
        Command::Interpret {
            limit,
            file,
            words,
            ..
        } => interpret(
            alloc,
            disk,
            out,
            *limit,
            *file,
            words.as_slice(),
            explanation,
        ),
        Command::Disassemble { file, .. } => disassemble(alloc, disk, out, *file, explanation),
        Command::Check { files } => check(alloc, disk, err, files.as_slice()),
        Command::Trace {
            limit,
            last,
            files,
            words,
        } => trace(
            alloc,
            disk,
            out,
            err,
            *limit,
            *last,
            files.as_slice(),
            words.as_slice(),
            explanation,
        ),
        Command::Stack { files } => show_stack(alloc, disk, out, files.as_slice(), explanation),
        Command::Symbols { out: target, files } => list_symbols(
            alloc,
            allocator,
            disk,
            out,
            *target,
            files.as_slice(),
            explanation,
        ),
    }
}

/// Does what the words after the program's name ask for, and answers the exit status.
///
/// | Words | What is done |
/// |---|---|
/// | `build [--explain] -o OUT FILE...` | compiles the files as texts, in order, with registers as the strategy chooses, and writes OUT only after success |
/// | `run [--explain] [--limit N] EXE WORD...` | runs the executable file for at most N instructions |
/// | `interp [--explain] [--limit N] FILE WORD...` | interprets one text for at most N turns |
/// | `dis [--explain] EXE` | shows the instructions of the executable file |
/// | `check FILE...` | says on `err` what is wrong with the files as texts, in order, each with its line |
/// | `trace [--limit N] [--last K] FILE... [-- WORD...]` | interprets the files as texts, in order, as `interp` does one, and says on `err` where and why they ended, if they didn't exit, with the last K turns |
/// | `stack FILE...` | shows how much stack the functions of the files, as texts in order, need, and the most that calls of them and the program take |
/// | `symbols [-o OUT] FILE...` | compiles the files as `build` does, and shows where their functions and data stand in the executable that this makes, behind writing it to OUT where that is given |
///
/// A program's output goes to `out`, while it runs. The status is the program's own, or 0 of `build`, of `dis`, of `symbols`, of `stack`, and of `check` where the texts are a program, else 126. Where something ends otherwise, the line of the [`Failure`] goes
/// to `err`, and its status is answered; where words are asked for, by `--explain`, or by `check`, `trace`, `symbols` or `stack`, lines behind it say why texts or a file were
/// refused, or a file couldn't be read or written. That `err` fails changes nothing. Where `out` fails, that is the failure. Help goes to `out`, with status 0; other texts of
/// the command line go to `err`, with status 126. What these texts say is shown by tests.
///
/// Failures are found in this order: the command line; the files in order, at the first that can't be read; refusals of the texts or of the executable file; the
/// argument words; the run; writing.
#[tactic(auto, unfolding(crate::specs::Commands::Ends))]
pub fn command<D: Disk, O: Sink, E: Sink>(
    alloc: Global,
    words: &[&str],
    allocator: &mut dyn Strategy,
    disk: &mut D,
    out: &mut O,
    err: &mut E,
) -> u8
    ensures { Ends (map (λ w. w.now) words.now)
        (record { disk = D.told disk.old; out = O.told out.old; err = E.told err.old })
        (record { disk = D.told disk.new; out = O.told out.new; err = E.told err.new })
        result }
{
    match command_of(alloc, words) {
        Ok(command) => {
            let mut explanation = Explanation::new(alloc, is_explained(&command));
            match perform(alloc, &command, allocator, disk, out, err, &mut explanation) {
                Ok(status) => status,
                Err(failure) => {
                    explanation.add_fault(&failure, disk);
                    report_explained(failure, &command, explanation.lines(), err)
                }
            }
        }
        Err(refusal) => show(alloc, refusal, words, out, err),
    }
}
