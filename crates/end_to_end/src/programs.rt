//! A program of the table, in every way.
use crate::broken_disk::BrokenDisk;
use crate::case::{Case, Program};
use crate::commanded::{Done, perform, perform_words};
use crate::compiled::{compile_with, file_by, ran};
use crate::interpreted::interpreted;
use crate::measures::measured;
use crate::told::is_stop;
use crate::watched::Watched;
use regalloc::spill_all::SpillAll;
use rv_machine::{FlatRam, PageRam, Ram};
use std::alloc::{AllocError, Global};
use std::str;
use test_report::report::Report;
use test_report::told::Told;
use text_maker::{TextMaker, say};

/// Checks a case in every way that it can be.
pub fn check(case: &Case, report: &mut Report) -> Result<(), AllocError> {
    report.begin(case.name.as_str())?;
    let program = Program::of(report.alloc, case)?;
    check_interpreted(&program, report)?;
    check_measures(&program, report)?;
    if case.is_refused() {
        check_refused(&program, report)?;
    } else {
        check_compiled(&program, report)?;
    }
    check_commands(&program, report)
}

// With a turn less than is known it isn't over.
fn check_interpreted(program: &Program<'_>, report: &mut Report) -> Result<(), AllocError> {
    let (case, texts) = (program.case, program.texts.as_slice());
    let words = program.words.as_slice();
    let said = interpreted(report.alloc, texts, words, case.turns_given())?;
    report.compare_runs("interpreter", &case.wanted, &said)?;
    if let Some(turns) = case.bounds.turns {
        let said = interpreted(report.alloc, texts, words, turns.saturating_sub(1))?;
        report.compare("a turn less", "limit", said.end.as_str())?;
    }
    Ok(())
}

// What isn't told may be anything.
fn check_measures(program: &Program<'_>, report: &mut Report) -> Result<(), AllocError> {
    let case = program.case;
    if case.needs.is_empty() && case.weights.is_empty() {
        return Ok(());
    }
    let (needs, weights) = measured(report.alloc, program.texts.as_slice())?;
    if !case.needs.is_empty() {
        report.compare("needs", case.needs.as_str(), needs.as_str())?;
    }
    if !case.weights.is_empty() {
        report.compare("weights", case.weights.as_str(), weights.as_str())?;
    }
    Ok(())
}

fn check_refused(program: &Program<'_>, report: &mut Report) -> Result<(), AllocError> {
    let mut allocator = SpillAll::new(report.alloc);
    let compiled = compile_with(report.alloc, program.texts.as_slice(), &mut allocator)?;
    let wanted = program.case.wanted.end.as_str();
    match &compiled {
        Ok(_) => report.fail("compile", wanted, "a file"),
        Err(why) => report.compare("compile", wanted, why.as_str()),
    }
}

// After what has no meaning only the output before it counts; but the machine ran, and ended as a machine can.
fn check_run<R: Ram>(
    program: &Program<'_>,
    what: &str,
    file: &[u8],
    report: &mut Report,
) -> Result<(), AllocError> {
    let (case, words) = (program.case, program.words.as_slice());
    let said = ran::<R>(report.alloc, file, words, case.instructions_given())?;
    if !case.wanted.is_lost() {
        return report.compare_runs(what, &case.wanted, &said);
    }
    let end = said.end.as_str();
    if !is_stop(end) {
        return report.fail(what, "an end of the machine", end);
    }
    let before = case.wanted.output.as_slice();
    report.holds(what, said.output.as_slice().starts_with(before))
}

fn check_file(program: &Program<'_>, file: &[u8], report: &mut Report) -> Result<(), AllocError> {
    check_run::<PageRam>(program, "run over pages", file, report)?;
    if program.case.marks.is_large {
        return Ok(());
    }
    check_run::<FlatRam>(program, "run over flat memory", file, report)
}

// With every register in a slot, and by linear scan; a large program by that alone.
fn check_compiled(program: &Program<'_>, report: &mut Report) -> Result<(), AllocError> {
    if program.case.marks.is_large {
        return check_scanned(program, &[], report);
    }
    let mut allocator = SpillAll::new(report.alloc);
    let texts = program.texts.as_slice();
    let spilled = file_by("compile in slots", texts, &mut allocator, report)?;
    check_file(program, spilled.as_slice(), report)?;
    check_scanned(program, spilled.as_slice(), report)
}

// By linear scan.
fn check_scanned(
    program: &Program<'_>,
    spilled: &[u8],
    report: &mut Report,
) -> Result<(), AllocError> {
    let (case, texts) = (program.case, program.texts.as_slice());
    let mut allocator = Watched::new(report.alloc);
    let file = file_by("compile", texts, &mut allocator, report)?;
    let differs = spilled != file.as_slice();
    report.holds("bytes differ", differs || !case.marks.differs)?;
    check_file(program, file.as_slice(), report)?;
    let (_, weights) = measured(report.alloc, texts)?;
    let functions = weights.as_str().split_whitespace().count() as u64;
    check_watched(case, &allocator, functions, report)
}

// Linear scan is asked for each function, and once more where the function doesn't fit with calls in place; each time its answer is accepted.
fn check_watched(
    case: &Case,
    allocator: &Watched,
    functions: u64,
    report: &mut Report,
) -> Result<(), AllocError> {
    let asked = allocator.asked;
    report.holds("each certificate is accepted", allocator.accepted == asked)?;
    report.holds(
        "a value is moved",
        0 < allocator.moves || !case.marks.is_cut,
    )?;
    report.holds(
        "registers are named",
        allocator.named >= case.bounds.registers,
    )?;
    let is_asked = functions <= asked && asked <= functions.saturating_mul(2);
    report.holds("once or twice for each function", is_asked)
}

// The status and the line of a run that ended so.
fn line_of(alloc: Global, end: &str) -> Result<String, AllocError> {
    if let Some(status) = end.strip_prefix("exit ") {
        return format!(in alloc; "{status} ");
    }
    match end {
        "halt" => String::from_str(alloc, "134 qbec: halt"),
        "limit" => String::from_str(alloc, "124 qbec: limit"),
        "undefined" => String::from_str(alloc, "125 qbec: undefined"),
        "stack" => String::from_str(alloc, "125 qbec: stack"),
        refusal => format!(in alloc; "126 qbec: refused {refusal}"),
    }
}

fn check_done(case: &Case, what: &str, done: &Done, report: &mut Report) -> Result<(), AllocError> {
    let wanted = line_of(report.alloc, case.wanted.end.as_str())?;
    let line = done.line(report.alloc)?;
    report.compare(what, wanted.as_str(), line.as_str())?;
    let is_put_out = done.output.as_slice() == case.wanted.output.as_slice();
    report.holds(what, is_put_out)
}

fn check_commands(program: &Program<'_>, report: &mut Report) -> Result<(), AllocError> {
    let case = program.case;
    let mut disk = BrokenDisk::new(report.alloc);
    for (number, text) in case.texts.iter().enumerate() {
        let path = format!(in report.alloc; "text{number}")?;
        disk.store(path.as_str(), text.as_slice())?;
    }
    if case.texts.len() > 0 {
        check_build(program, &mut disk, report)?;
    }
    if case.texts.len() == 1 {
        let limit = case.turns_given();
        check_words(case, &mut disk, "interp", limit, "text0", report)?;
    }
    Ok(())
}

// `interp` or `run` of a file, with the case's words.
fn check_words(
    case: &Case,
    disk: &mut BrokenDisk,
    verb: &str,
    limit: u64,
    path: &str,
    report: &mut Report,
) -> Result<(), AllocError> {
    let said = said_of(case, disk, verb, limit, path, report.alloc)?;
    check_done(case, verb, &said, report)
}

fn said_of(
    case: &Case,
    disk: &mut BrokenDisk,
    verb: &str,
    limit: u64,
    path: &str,
    alloc: Global,
) -> Result<Done, AllocError> {
    let limit = format!(in alloc; "{limit}")?;
    said_within(case, disk, verb, limit.as_str(), path, alloc)
}

fn said_within<'x>(
    case: &'x Case,
    disk: &mut BrokenDisk,
    verb: &'x str,
    limit: &'x str,
    path: &'x str,
    alloc: Global,
) -> Result<Done, AllocError> {
    let mut words = Vec::new(alloc);
    words.extend_from_slice(&[verb, "--limit", limit, path, "--"])?;
    for word in &case.words {
        words.push(word.as_str())?;
    }
    perform(alloc, disk, words.as_slice())
}

// The additions of a long loop stand in the code, and in no table that it builds on the stack.
fn check_additions(
    case: &Case,
    disk: &mut BrokenDisk,
    report: &mut Report,
) -> Result<(), AllocError> {
    if case.bounds.additions == 0 {
        return Ok(());
    }
    let shown = perform_words(report.alloc, disk, "dis out")?;
    let code = str::from_utf8(shown.output.as_slice()).unwrap_or("");
    let count = code.lines().filter(|line| line.contains("  add")).count();
    report.holds("instructions that add", count >= case.bounds.additions)
}

// Builds the case's texts.
fn build(case: &Case, disk: &mut BrokenDisk, alloc: Global) -> Result<Done, AllocError> {
    let mut words = TextMaker::new(alloc);
    words.add("build -o out");
    for number in 0..case.texts.len() {
        say!(words; " text{number}");
    }
    perform_words(alloc, disk, words.finish()?.as_str())
}

// Whether `run` says so of a run of the machine that ended so; of a fault, whichever it is.
fn tells_stop(alloc: Global, end: &str, line: &str) -> Result<bool, AllocError> {
    match end {
        "fault" => Ok(line.starts_with("125 qbec: fault F")),
        "memory" => Ok(line == "126 qbec: memory"),
        _ => Ok(line == line_of(alloc, end)?.as_str()),
    }
}

fn compare_stops(wanted: &Told, said: &Done, report: &mut Report) -> Result<(), AllocError> {
    let line = said.line(report.alloc)?;
    let end = wanted.end.as_str();
    if !is_stop(end) || !tells_stop(report.alloc, end, line.as_str())? {
        report.fail("run", end, line.as_str())?;
    }
    let is_put_out = said.output.as_slice() == wanted.output.as_slice();
    report.holds("output of run", is_put_out)
}

// What a program puts out before it has no meaning any more, `run` puts out first; it ends as the machine does, whatever that is.
fn check_lost(
    program: &Program<'_>,
    disk: &mut BrokenDisk,
    report: &mut Report,
) -> Result<(), AllocError> {
    let case = program.case;
    let limit = case.instructions_given();
    let file = disk.find("out").unwrap_or(&[]);
    let wanted = ran::<PageRam>(report.alloc, file, program.words.as_slice(), limit)?;
    let said = said_of(case, disk, "run", limit, "out", report.alloc)?;
    compare_stops(&wanted, &said, report)?;
    let before = case.wanted.output.as_slice();
    report.holds("run", said.output.as_slice().starts_with(before))
}

fn check_build(
    program: &Program<'_>,
    disk: &mut BrokenDisk,
    report: &mut Report,
) -> Result<(), AllocError> {
    let case = program.case;
    let built = build(case, disk, report.alloc)?;
    if case.is_refused() {
        check_done(case, "build", &built, report)?;
        return report.holds("no file is written", disk.find("out").is_none());
    }
    let line = built.line(report.alloc)?;
    report.compare("build", "0 ", line.as_str())?;
    check_additions(case, disk, report)?;
    if case.wanted.is_lost() {
        return check_lost(program, disk, report);
    }
    check_words(case, disk, "run", case.instructions_given(), "out", report)
}
