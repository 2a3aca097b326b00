//! What parsed words ask for.
ghost use Rattle.std.specs.Prelude.{◌≡◌, IfOk, codes, map, option_map};
ghost use Rattle.clap.specs.Matches.{found_of};
ghost use Rattle.clap.specs.Walk.{first_of, rows_of};
ghost use Rattle.command_line.specs.Asked.{Asks, AsksFor, HandsOn, IsExplain, IsLast, IsLimit, MayHandOn, word_in, words_in};

use crate::grammar::{EXECUTABLE, EXPLAIN, FILES, LAST, LIMIT, OUT, TEXT, WORDS};
use crate::{Command, DEFAULT_LIMIT};
use clap::ArgMatches;
use std::alloc::{AllocError, Global};

/// The one word of an argument.
fn word_of<'a>(found: &ArgMatches<'a>, name: &str) -> &'a str
    ensures { result.now ≡ word_in (rows_of (found_of found.now)) name.now }
{
    found.get_str(name).unwrap_or("")
}

/// The one word of an argument, if it has one.
fn option_of<'a>(found: &ArgMatches<'a>, name: &str) -> Option<&'a str>
    ensures { option_map (λ s. s.now) result ≡ first_of name.now (rows_of (found_of found.now)) }
{
    found.get_str(name)
}

/// All words of an argument.
fn words_of<'a>(
    alloc: Global,
    found: &ArgMatches<'a>,
    name: &str,
) -> Result<Vec<&'a str>, AllocError>
    ensures { IfOk result (λ v. map (λ s. s.now) v.items ≡ words_in (rows_of (found_of found.now)) name.now) }
{
    let words = found.get_strs(name).unwrap_or(&[]);
    words.to_vec(alloc)
}

fn limit_of(found: &ArgMatches<'_>) -> u64
    ensures { IsLimit (rows_of (found_of found.now)) result }
{
    found.get_one::<u64>(LIMIT).unwrap_or(DEFAULT_LIMIT)
}

fn last_of(found: &ArgMatches<'_>) -> u64
    ensures { IsLast (rows_of (found_of found.now)) result }
{
    found.get_one::<u64>(LAST).unwrap_or(0)
}

fn explain_of(found: &ArgMatches<'_>) -> bool
    ensures { IsExplain (rows_of (found_of found.now)) result }
{
    found.get_flag(EXPLAIN)
}

fn build_of<'a>(alloc: Global, found: &ArgMatches<'a>) -> Result<Command<'a>, AllocError>
    ensures { IfOk result (Asks (codes "build") (rows_of (found_of found.now))) }
{
    let files = words_of(alloc, found, FILES)?;
    Ok(Command::Build {
        explain: explain_of(found),
        out: word_of(found, OUT),
        files,
    })
}

fn run_of<'a>(alloc: Global, found: &ArgMatches<'a>) -> Result<Command<'a>, AllocError>
    ensures { IfOk result (Asks (codes "run") (rows_of (found_of found.now))) }
{
    let words = words_of(alloc, found, WORDS)?;
    Ok(Command::Run {
        explain: explain_of(found),
        limit: limit_of(found),
        file: word_of(found, EXECUTABLE),
        words,
    })
}

fn interpret_of<'a>(alloc: Global, found: &ArgMatches<'a>) -> Result<Command<'a>, AllocError>
    ensures { IfOk result (Asks (codes "interp") (rows_of (found_of found.now))) }
{
    let words = words_of(alloc, found, WORDS)?;
    Ok(Command::Interpret {
        explain: explain_of(found),
        limit: limit_of(found),
        file: word_of(found, TEXT),
        words,
    })
}

fn disassemble_of<'a>(found: &ArgMatches<'a>) -> Command<'a>
    ensures { Asks (codes "dis") (rows_of (found_of found.now)) result }
{
    Command::Disassemble {
        explain: explain_of(found),
        file: word_of(found, EXECUTABLE),
    }
}

fn check_of<'a>(alloc: Global, found: &ArgMatches<'a>) -> Result<Command<'a>, AllocError>
    ensures { IfOk result (Asks (codes "check") (rows_of (found_of found.now))) }
{
    let files = words_of(alloc, found, FILES)?;
    Ok(Command::Check { files })
}

fn symbols_of<'a>(alloc: Global, found: &ArgMatches<'a>) -> Result<Command<'a>, AllocError>
    ensures { IfOk result (Asks (codes "symbols") (rows_of (found_of found.now))) }
{
    let files = words_of(alloc, found, FILES)?;
    Ok(Command::Symbols {
        out: option_of(found, OUT),
        files,
    })
}

fn stack_of<'a>(alloc: Global, found: &ArgMatches<'a>) -> Result<Command<'a>, AllocError>
    ensures { IfOk result (Asks (codes "stack") (rows_of (found_of found.now))) }
{
    let files = words_of(alloc, found, FILES)?;
    Ok(Command::Stack { files })
}

fn trace_of<'a>(
    alloc: Global,
    found: &ArgMatches<'a>,
    handed: &[&'a str],
) -> Result<Command<'a>, AllocError>
    ensures asks { IfOk result (Asks (codes "trace") (rows_of (found_of found.now))) }
    ensures hands { IfOk result (HandsOn (map (λ w. w.now) handed.now)) }
{
    let files = words_of(alloc, found, FILES)?;
    let words = handed.to_vec(alloc)?;
    Ok(Command::Trace {
        limit: limit_of(found),
        last: last_of(found),
        files,
        words,
    })
}

/// What the subcommand of this name asks for, with the values of its arguments, and with the words that are handed on; none where no command has the name.
///
/// # Errors
///
/// Only where memory was refused.
pub fn asked<'a>(
    alloc: Global,
    name: &str,
    found: &ArgMatches<'a>,
    handed: &[&'a str],
) -> Result<Option<Command<'a>>, AllocError>
    ensures asks { IfOk result (AsksFor name.now (rows_of (found_of found.now))) }
    ensures hands { IfOk result (MayHandOn (map (λ w. w.now) handed.now)) }
{
    let command = match name {
        "build" => build_of(alloc, found),
        "run" => run_of(alloc, found),
        "interp" => interpret_of(alloc, found),
        "dis" => Ok(disassemble_of(found)),
        "check" => check_of(alloc, found),
        "symbols" => symbols_of(alloc, found),
        "stack" => stack_of(alloc, found),
        "trace" => trace_of(alloc, found, handed),
        _ => return Ok(None),
    };
    command.map(Some)
}
