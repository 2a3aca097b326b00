//! # Each step by itself
//!
//! Texts, and what a step of the compiler makes of them as texts. A step has its table of cases, `steps/STEP.cases` in the folder where the program that asks for them
//! runs: `crates/bench`, whose `data` holds them. [`steps_told`] says how each came out.
#![tactic(auto)]

mod allocation;
mod back_end;
mod case;
mod certified;
mod chosen;
mod code_text;
pub mod files;
mod frames;
mod front_end;
pub mod graphs;
mod hexadecimal;
mod linking;
mod lists;
mod machine;
mod nests;
mod orders;
mod passes;
mod phis;
mod plans;
mod schedules;
mod show;
mod step;
mod tokens;
mod watch;

use crate::case::{Case, case_of};
use crate::code_text::function::is_same;
use crate::step::{made, step_names};
use crate::watch::watched;
use std::alloc::AllocError;
use std::rt::Files;
use std::{fs, io, str};
use test_report::report::Report;

fn check_case(step: &str, case: Case<'_>, report: &mut Report) -> Result<(), AllocError> {
    report.begin(case.name)?;
    match made(step, report.alloc, case) {
        Some(made) if is_same(made.as_str(), case.wanted) => Ok(()),
        Some(made) => report.compare("made", case.wanted, made.as_str()),
        None => report.fail("made", case.wanted, "nothing"),
    }
}

/// Checks each case of a table: what stands before a line with a dot.
fn check_table(step: &str, table: &str, report: &mut Report) -> Result<(), AllocError> {
    report.enter(step)?;
    for text in table.strip_suffix("\n.\n").unwrap_or(table).split("\n.\n") {
        match case_of(text) {
            Some(case) => check_case(step, case, report)?,
            None => {
                report.begin(step)?;
                report.fail("read", "a case", text)?;
            }
        }
    }
    Ok(())
}

/// What each step makes of a text's only function.
fn watched_file<R: Files + AllocGlobal>(rt: &R, path: &str) -> io::Result<String> {
    let bytes = fs::read(rt, path)?;
    let source = str::from_utf8(bytes.as_slice()).unwrap_or("");
    match watched(rt.alloc(), source) {
        Some(shown) => Ok(shown),
        None => Err(io::Error::from(io::ErrorKind::InvalidData)),
    }
}

/// Checks the tables of the steps that are named, or of all where none is. The lines of the report are answered.
fn checked_steps<R: Files + AllocGlobal>(rt: &R, names: &[String]) -> io::Result<String> {
    let mut report = Report::new(rt.alloc());
    let steps = step_names(rt.alloc())?;
    for step in steps.as_slice() {
        if names.is_empty() || names.iter().any(|name| name.as_str() == *step) {
            let path = format!(in rt.alloc(); "steps/{step}.cases")?;
            let bytes = fs::read(rt, path.as_str())?;
            let table = str::from_utf8(bytes.as_slice()).unwrap_or("");
            check_table(step, table, &mut report)?;
        }
    }
    report.finish()?;
    Ok(report.text)
}

/// What is told of steps: with the words `watch FILE` what each step makes of the only function of a text, else a line for each case that fails, a line for each step that
/// is named (or for all where none is), and how many cases there are.
///
/// # Errors
///
/// Where a table or the file can't be read, the text has not one function, or memory was refused.
pub fn steps_told<R: Files + AllocGlobal>(rt: &R, words: &[String]) -> io::Result<String> {
    match words {
        [command, path] if command.as_str() == "watch" => watched_file(rt, path.as_str()),
        names => checked_steps(rt, names),
    }
}
