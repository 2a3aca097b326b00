//! Random programs: interpreted, and compiled with several strategies and run over both kinds of memory within their price.
use crate::compiled::{file_by, ran};
use crate::interpreted::interpreted;
use crate::strategies::{Answer, Fixed};
use crate::texts::random_text::random_text;
use crate::texts::small_functions::small_functions;
use crate::told::begin;
use crate::watched::Watched;
use regalloc::spill_all::SpillAll;
use regalloc::strategy::Strategy;
use rv_machine::{FlatRam, PageRam, Ram};
use std::alloc::{AllocError, Global};
use test_report::report::Report;
use test_report::told::Told;

/// More turns than any of the programs takes.
const PLENTY: u64 = 1 << 20;

// With how many turns the program is over: the least number.
fn turns_of(alloc: Global, text: &[u8]) -> Result<u64, AllocError> {
    let mut below = 0u64;
    let mut enough = PLENTY;
    for _ in 0..21 {
        let middle = below / 2 + enough / 2;
        let said = interpreted(alloc, &[text], &[], middle)?;
        if said.end.as_str() == "limit" {
            below = middle;
        } else {
            enough = middle;
        }
    }
    Ok(enough.saturating_add(1))
}

// The price is at most this: a turn weighs at most 11, that of a call with ten arguments, and enters at most one call.
fn most_price(turns: u64) -> u64 {
    turns.saturating_mul(32 * 11 + 256).saturating_add(512)
}

/// A random program, how it ends, and within how many instructions.
#[derive(Drop)]
struct Program<'p> {
    text: &'p [u8],
    wanted: &'p Told,
    limit: u64,
}

fn check_run<R: Ram>(
    what: &str,
    file: &[u8],
    program: &Program<'_>,
    report: &mut Report,
) -> Result<(), AllocError> {
    let said = ran::<R>(report.alloc, file, &[], program.limit)?;
    report.compare_runs(what, program.wanted, &said)
}

fn check_strategy(
    what: &str,
    allocator: &mut dyn Strategy,
    program: &Program<'_>,
    report: &mut Report,
) -> Result<(), AllocError> {
    let file = file_by(what, &[program.text], allocator, report)?;
    check_run::<PageRam>(what, file.as_slice(), program, report)
}

// By linear scan, over both kinds of memory.
fn check_scan(program: &Program<'_>, report: &mut Report) -> Result<(), AllocError> {
    let mut scan = Watched::new(report.alloc);
    let file = file_by("linear scan", &[program.text], &mut scan, report)?;
    report.holds("each certificate is accepted", scan.accepted == scan.asked)?;
    check_run::<PageRam>("linear scan", file.as_slice(), program, report)?;
    check_run::<FlatRam>(
        "linear scan over flat memory",
        file.as_slice(),
        program,
        report,
    )
}

fn check_program(program: &Program<'_>, report: &mut Report) -> Result<(), AllocError> {
    let alloc = report.alloc;
    check_strategy("slots", &mut SpillAll::new(alloc), program, report)?;
    check_scan(program, report)?;
    let mut second_time = Fixed::new(alloc, Answer::EverySecondTime);
    check_strategy("second time", &mut second_time, program, report)?;
    let mut one_in_x5 = Fixed::new(alloc, Answer::OneInX5(2));
    check_strategy("one in x5", &mut one_in_x5, program, report)
}

fn check_text(text: &[u8], report: &mut Report) -> Result<(), AllocError> {
    let wanted = interpreted(report.alloc, &[text], &[], PLENTY)?;
    report.holds("it exits", wanted.end.as_str().starts_with("exit "))?;
    let limit = most_price(turns_of(report.alloc, text)?);
    let program = Program {
        text,
        wanted: &wanted,
        limit,
    };
    check_program(&program, report)
}

/// Checks so many random programs, from this seed on.
pub fn check(count: u64, seed: u64, report: &mut Report) -> Result<(), AllocError> {
    for number in 0..count {
        let seed = seed.wrapping_add(number);
        begin(report, format_args!("random program of seed {seed}"))?;
        check_text(random_text(report.alloc, seed)?.as_bytes(), report)?;
    }
    Ok(())
}

/// Checks so many random programs of many small functions, from this seed on.
pub fn check_small(count: u64, seed: u64, report: &mut Report) -> Result<(), AllocError> {
    for number in 0..count {
        let seed = seed.wrapping_add(number);
        begin(report, format_args!("small functions of seed {seed}"))?;
        check_text(small_functions(report.alloc, seed)?.as_bytes(), report)?;
    }
    Ok(())
}
