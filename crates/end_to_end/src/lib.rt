//! # Programs in every way
//!
//! By the interpreter, compiled with every kind of strategy and run over both kinds of memory, and by the commands.
//!
//! The programs stand in `programs.cases`, with what is known of each from outside; `files.cases` has changes of an executable file, with their refusals, and `lines.cases`
//! what is shown for words of the command line: in the folder where the program that asks for them runs, which is `crates/bench`, whose `data` holds them.
//! [`programs_told`] says how each came out. Further programs are made by a rule or at random (`texts`).
#![tactic(auto)]

mod broken_disk;
mod case;
mod commanded;
mod compiled;
mod devices;
mod files;
mod hostile;
mod interpreted;
mod lines;
mod measures;
mod prefixes;
mod programs;
mod random;
mod sizes;
mod stack_uses;
mod strategies;
mod table;
pub mod texts;
mod told;
mod watched;

use crate::case::Case;
use crate::table::CaseTable;
use std::alloc::{AllocError, Global};
use std::rt::Files;
use std::{fs, io, str};
use test_report::report::Report;

/// How many random programs there are, where no words say.
const RANDOM: u64 = 300;

/// How many random programs of many small functions there are, where no words say.
const SMALL: u64 = 40;

/// What the words ask for.
#[derive(Drop)]
struct Asked<'a> {
    groups: Vec<&'a str>,
    count: Option<u64>,
    seed: u64,
}

impl<'a> Asked<'a> {
    fn has(&self, group: &str) -> bool {
        self.groups.is_empty() || self.groups.iter().any(|asked| *asked == group)
    }
}

fn words_asked<'a>(alloc: Global, words: &'a [String]) -> Result<Asked<'a>, AllocError> {
    let mut asked = Asked {
        groups: Vec::new(alloc),
        count: None,
        seed: 1,
    };
    for word in words {
        match word.as_str().parse::<u64>() {
            Ok(seed) if asked.count.is_some() => asked.seed = seed,
            Ok(count) => asked.count = Some(count),
            Err(_) => asked.groups.push(word.as_str())?,
        }
    }
    Ok(asked)
}

/// The table of the file of programs.
fn table_of<R: Files + AllocGlobal>(rt: &R) -> io::Result<CaseTable> {
    let bytes = fs::read(rt, "programs.cases")?;
    let text = str::from_utf8(bytes.as_slice()).unwrap_or("");
    let mut table = CaseTable::new(rt.alloc());
    for line in text.lines() {
        table.take(rt, line)?;
    }
    Ok(table)
}

/// The groups beside those of the table.
const GROUPS: &str = "files lines strategies prefixes devices sizes random small_functions";

fn check_group<R: Files + AllocGlobal>(
    rt: &R,
    group: &str,
    cases: &[Case],
    asked: &Asked<'_>,
    report: &mut Report,
) -> io::Result<()> {
    match group {
        "files" => files::check(rt, cases, report)?,
        "lines" => lines::check(rt, report)?,
        "strategies" => hostile::check(cases, report)?,
        "prefixes" => prefixes::check(cases, report)?,
        "devices" => devices::check(report)?,
        "sizes" => sizes::check(report)?,
        "random" => random::check(asked.count.unwrap_or(RANDOM), asked.seed, report)?,
        _ => random::check_small(asked.count.unwrap_or(SMALL), asked.seed, report)?,
    }
    Ok(())
}

/// What is told of programs: a line for each case that fails, a line for each group that the words name, or for all where they name none, and how many cases there are. The
/// groups are those of the table and `strategies`, `prefixes`, `files`, `lines`, `devices`, `sizes`, `random` and `small_functions`. Numbers among the words say how
/// many random programs there are, and then their seed.
///
/// # Errors
///
/// Where a table can't be read, or memory was refused.
pub fn programs_told<R: Files + AllocGlobal>(rt: &R, words: &[String]) -> io::Result<String> {
    let asked = words_asked(rt.alloc(), words)?;
    let table = table_of(rt)?;
    let mut report = Report::new(rt.alloc());
    for case in &table.cases {
        if asked.has(case.group.as_str()) {
            report.enter(case.group.as_str())?;
            programs::check(case, &mut report)?;
        }
    }
    for group in GROUPS.split(' ') {
        if asked.has(group) {
            report.enter(group)?;
            check_group(rt, group, table.cases.as_slice(), &asked, &mut report)?;
        }
    }
    report.finish()?;
    Ok(report.text)
}
