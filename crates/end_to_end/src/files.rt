//! Executable files that are cut or changed: each is refused by its number.
//!
//! A line of `files.cases` is an offset, the bytes that are put there in hexadecimal, and the refusals that are true of the file then, with `|` between.
use crate::broken_disk::BrokenDisk;
use crate::case::{Case, Program};
use crate::commanded::line_of_words;
use crate::compiled::file_by;
use crate::table::bytes_of;
use regalloc::spill_all::SpillAll;
use std::alloc::{AllocError, Global};
use std::rt::Files;
use std::{fs, io, str};
use test_report::report::Report;

// The line of `verb` for a file of these bytes.
fn line_for(alloc: Global, verb: &str, bytes: &[u8]) -> Result<String, AllocError> {
    let mut disk = BrokenDisk::new(alloc);
    disk.store("file", bytes)?;
    let words = format!(in alloc; "{verb} file")?;
    line_of_words(alloc, &mut disk, words.as_str())
}

fn check_cuts(file: &[u8], report: &mut Report) -> Result<(), AllocError> {
    report.begin("each beginning of a file")?;
    for length in 0..file.len() {
        let line = line_for(report.alloc, "run", &file[..length])?;
        report.compare("run", "126 qbec: refused L1", line.as_str())?;
    }
    let line = line_for(report.alloc, "dis", &file[..file.len() / 2])?;
    report.compare("dis", "126 qbec: refused L1", line.as_str())
}

// The file with other bytes from a place on.
fn changed(alloc: Global, file: &[u8], offset: usize, bytes: &[u8]) -> Result<Vec<u8>, AllocError> {
    let mut changed = Vec::new(alloc);
    for (k, old) in file.iter().enumerate() {
        let new = k.checked_sub(offset).and_then(|at| bytes.get(at));
        changed.push(*new.unwrap_or(old))?;
    }
    Ok(changed)
}

// The file is refused by one of the numbers between `|`.
fn check_refused(
    verb: &str,
    file: &[u8],
    numbers: &str,
    report: &mut Report,
) -> Result<(), AllocError> {
    let line = line_for(report.alloc, verb, file)?;
    let number = line
        .as_str()
        .strip_prefix("126 qbec: refused ")
        .unwrap_or("none");
    report.holds(verb, numbers.split('|').any(|w| w == number))
}

fn check_change(file: &[u8], line: &str, report: &mut Report) -> Result<(), AllocError> {
    let (offset, rest) = line.split_once(' ').unwrap_or((line, ""));
    let (digits, numbers) = rest.split_once(' ').unwrap_or((rest, ""));
    report.begin(line)?;
    let bytes = bytes_of(report.alloc, digits)?;
    let offset = offset.parse::<usize>().unwrap_or(0);
    let other = changed(report.alloc, file, offset, bytes.as_slice())?;
    check_refused("run", other.as_slice(), numbers, report)?;
    check_refused("dis", other.as_slice(), numbers, report)
}

fn check_case(case: &Case, changes: &str, report: &mut Report) -> Result<(), AllocError> {
    report.begin("the head of a file")?;
    let program = Program::of(report.alloc, case)?;
    let mut allocator = SpillAll::new(report.alloc);
    let file = file_by("compile", program.texts.as_slice(), &mut allocator, report)?;
    report.holds("head", file.as_slice().starts_with(HEAD))?;
    check_cuts(file.as_slice(), report)?;
    for line in changes.lines() {
        if !line.is_empty() && !line.starts_with("//") {
            check_change(file.as_slice(), line, report)?;
        }
    }
    Ok(())
}

/// The first 64 bytes of the file of a program without data.
const HEAD: &[u8] =
    b"\x7fELF\x02\x01\x01\0\0\0\0\0\0\0\0\0\x02\0\xf3\0\x01\0\0\0\0\0\x01\0\0\0\0\0\x40\0\0\0\0\0\0\0\0\0\0\0\0\0\0\0\0\0\0\0\x40\0\x38\0\x01\0\0\0\0\0\0\0";

/// Checks the file of the program `zero` of the table.
pub fn check<R: Files + AllocGlobal>(
    rt: &R,
    cases: &[Case],
    report: &mut Report,
) -> io::Result<()> {
    let bytes = fs::read(rt, "files.cases")?;
    let changes = str::from_utf8(bytes.as_slice()).unwrap_or("");
    for case in cases {
        if case.name.as_str() == "zero" {
            check_case(case, changes, report)?;
        }
    }
    Ok(())
}
