//! # The command line of qbec
//!
//! [`command_of`] takes the words after the program's name and answers what they ask for, [`Command`], or the text to show instead, [`Refusal`].
//! Which words ask for what is its contract (`specs/Asked.antt`), by the grammar in `specs/Grammar.antt`: what words mean by a grammar is `clap`'s definition. What
//! the texts say is `clap`'s too, and shown by tests alone.
#![tactic(auto)]

pub mod asked;
mod grammar;
pub mod laws;
pub mod refusal;

ghost use Rattle.std.specs.Prelude.{◌≡◌, ◌≤◌, [], IfOk, IfErr, OnOk, length, map};
ghost use Rattle.clap.specs.Faults.{fault_of};
ghost use Rattle.clap.specs.Simple.{subcommand_of, subcommand_rows_of};
ghost use Rattle.command_line.specs.Asked.{AsksIn, MayHandOn, AskFor, SaysOf, SaysWhy, dashes_at, handed_words, is_trace, read_words};
ghost use Rattle.command_line.specs.Grammar.{qbec_app};

use crate::asked::asked;
use crate::grammar::grammar;
pub use crate::refusal::Refusal;
use clap::ArgMatches;
use std::alloc::{AllocError, Global};

/// What the user asks for.
#[derive(Drop)]
pub enum Command<'a> {
    /// Compile the files, as texts in this order, to the executable file `out`. Here and below, `explain` asks for words where something is refused.
    Build {
        explain: bool,
        out: &'a str,
        files: Vec<&'a str>,
    },
    /// Run the executable file with these argument words for at most `limit` instructions.
    Run {
        explain: bool,
        limit: u64,
        file: &'a str,
        words: Vec<&'a str>,
    },
    /// Interpret the text in `file` with these argument words for at most `limit` turns.
    Interpret {
        explain: bool,
        limit: u64,
        file: &'a str,
        words: Vec<&'a str>,
    },
    /// Show the instructions of the executable file.
    Disassemble {
        explain: bool,
        file: &'a str,
    },
    /// Say what is wrong with the files, as texts in this order.
    Check {
        files: Vec<&'a str>,
    },
    /// Interpret the files, as texts in this order, so, and say where and why they ended, with so many turns before.
    Trace {
        limit: u64,
        last: u64,
        files: Vec<&'a str>,
        words: Vec<&'a str>,
    },
    /// Show where the names of the files, as texts in this order, stand in an executable of them, and write it to the file `out`, where there is one.
    Symbols {
        out: Option<&'a str>,
        files: Vec<&'a str>,
    },
    /// Show how much stack the functions of the files, as texts in this order, need and take at most.
    Stack {
        files: Vec<&'a str>,
    },
}

/// How many instructions or turns a run has where the words don't say: a thousand million.
pub const DEFAULT_LIMIT: u64 = 1_000_000_000;

/// What the words after the program's name ask for.
///
/// The words are those of a call such as `build [--explain] -o OUT FILE...`, `run [--explain] [--limit N] EXE WORD...`, `interp [--explain] [--limit N] FILE WORD...`,
/// `dis [--explain] EXE`, `check FILE...`, `symbols [-o OUT] FILE...`, `stack FILE...` or `trace [--limit N] [--last K] FILE... [-- WORD...]`.
/// N is from 0 to 1,000,000,000,000, by default [`DEFAULT_LIMIT`], and K from 0 to 1,000, by default 0. A WORD that begins with `-` stands after `--`, and each WORD
/// of a trace does.
///
/// # Errors
///
/// `Refusal::Help` has the text that was asked for; `Refusal::Mistake` says why the words ask for nothing; `Refusal::Memory` is answered only where
/// memory was refused.
pub fn command_of<'a>(alloc: Global, words: &'a [&'a str]) -> Result<Command<'a>, Refusal>
    ensures asks { IfOk result (AskFor (map (λ w. w.now) words.now)) }
    ensures says { IfErr result (SaysWhy (map (λ w. w.now) words.now)) }
{
    let (read, handed) = split(words);
    let matches = matches_of(alloc, read)?;
    match asked_in(alloc, matches, handed)? {
        Some(command) => Ok(command),
        None => unreachable!(),
    }
}

/// The words that the grammar reads, and those that are handed on as they are.
fn split<'a>(words: &'a [&'a str]) -> (&'a [&'a str], &'a [&'a str])
    ensures read { map (λ w. w.now) result.0.now ≡ read_words (map (λ w. w.now) words.now) }
    ensures handed { map (λ w. w.now) result.1.now ≡ handed_words (map (λ w. w.now) words.now) }
{
    if !is_trace(words) {
        return (words, &[]);
    }
    let at = dashes_at(words);
    if at < words.len() {
        (&words[..at], &words[at + 1..])
    } else {
        (words, &[])
    }
}

fn is_trace(words: &[&str]) -> bool
    ensures { result ≡ is_trace (map (λ w. w.now) words.now) }
{
    match words {
        [] => false,
        [word, ..] => *word == "trace",
    }
}

/// How many words stand before the first `--`, or how many there are.
fn dashes_at(words: &[&str]) -> usize
    ensures value { result ≡ dashes_at (map (λ w. w.now) words.now) }
    ensures bound { result ≤ length words.now }
{
    let mut at = 0;
    while at < words.len() && words[at] != "--" {
        at += 1;
    }
    at
}

fn matches_of<'a>(alloc: Global, words: &'a [&'a str]) -> Result<ArgMatches<'a>, Refusal>
    ensures clean { OnOk result (fault_of qbec_app (map (λ w. w.now) words.now) ≡ []) }
    ensures found { IfOk result (λ m. subcommand_rows_of m ≡ subcommand_of qbec_app (map (λ w. w.now) words.now)) }
    ensures says { IfErr result (SaysOf (map (λ w. w.now) words.now)) }
{
    match grammar(alloc)?.try_get_matches_from(words) {
        Ok(matches) => Ok(matches),
        Err(error) => Err(Refusal::from(error)),
    }
}

/// What the subcommand asks for, where there is one.
fn asked_in<'a>(
    alloc: Global,
    matches: ArgMatches<'a>,
    handed: &[&'a str],
) -> Result<Option<Command<'a>>, AllocError>
    ensures asks { IfOk result (AsksIn (subcommand_rows_of matches.entry)) }
    ensures hands { IfOk result (MayHandOn (map (λ w. w.now) handed.now)) }
{
    match matches.subcommand() {
        Some((name, found)) => asked(alloc, name, found, handed),
        None => Ok(None),
    }
}
