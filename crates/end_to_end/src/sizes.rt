//! Programs of 0 to 130 functions, argument words and texts, with ample memory: none is refused, whatever its size.
use crate::compiled::{file_by, ran};
use crate::told::begin;
use regalloc::linear_scan::LinearScan;
use rv_machine::PageRam;
use std::alloc::{AllocError, Global};
use test_report::report::Report;
use text_maker::{TextMaker, say};

/// Of everything there are at most so many.
const MOST: usize = 130;

/// A program that exits with the number of its argument words.
const COUNTS: &str = "export function w $main(w %count, l %words) {\n@s\nret %count\n}\n";

/// Instructions that each of these programs gets along with.
const INSTRUCTIONS: u64 = 100_000;

/// Functions of which each calls the next, the last of which returns 7; `main` calls the first. With none, `main` returns 7.
fn functions(alloc: Global, count: usize) -> Result<String, AllocError> {
    let mut text = TextMaker::new(alloc);
    text.add("export function w $main() {\n@s\n");
    for next in 1..=count as u64 {
        say!(text; "%r =w call $f{next}()\nret %r\n}}\n");
        say!(text; "function w $f{next}() {{\n@s\n");
    }
    text.add("ret 7\n}\n");
    text.finish()
}

/// A text of one function of its own, whose name others have too.
const PRIVATE: &str = "function w $f() {\n@s\nret 3\n}\n";

/// Checks that the program of the texts exits with a number.
fn check_texts(
    texts: &[&[u8]],
    words: &[&[u8]],
    wanted: usize,
    report: &mut Report,
) -> Result<(), AllocError> {
    let file = file_by("compile", texts, &mut LinearScan::new(report.alloc), report)?;
    let said = ran::<PageRam>(report.alloc, file.as_slice(), words, INSTRUCTIONS)?;
    let wanted = format!(in report.alloc; "exit {wanted}")?;
    report.compare("run", wanted.as_str(), said.end.as_str())
}

fn check_functions(count: usize, report: &mut Report) -> Result<(), AllocError> {
    begin(report, format_args!("{count} functions"))?;
    let text = functions(report.alloc, count)?;
    check_texts(&[text.as_bytes()], &[], 7, report)
}

fn check_words(count: usize, report: &mut Report) -> Result<(), AllocError> {
    begin(report, format_args!("{count} words"))?;
    let words = vec![in report.alloc; "word".as_bytes(); count]?;
    check_texts(&[COUNTS.as_bytes()], words.as_slice(), count, report)
}

fn check_many_texts(count: usize, report: &mut Report) -> Result<(), AllocError> {
    begin(report, format_args!("{count} texts beside main"))?;
    let mut texts = vec![in report.alloc; PRIVATE.as_bytes(); count]?;
    texts.push(COUNTS.as_bytes())?;
    check_texts(texts.as_slice(), &[], 0, report)
}

/// Checks a program of each size.
pub fn check(report: &mut Report) -> Result<(), AllocError> {
    for count in 0..=MOST {
        check_functions(count, report)?;
        check_words(count, report)?;
        check_many_texts(count, report)?;
    }
    Ok(())
}
