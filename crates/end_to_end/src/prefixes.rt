//! Beginnings of texts, and bytes that no text may have.
use crate::case::Case;
use crate::interpreted::interpreted;
use crate::told::begin;
use std::alloc::AllocError;
use test_report::report::Report;

// The number of a refusal, or how a run ended.
fn number(end: &str) -> &str {
    match end.split_once(' ') {
        Some((number, _)) if end.starts_with("E") => number,
        _ => end,
    }
}

// The beginnings of the first row: nothing is no program, and only the last byte may be missing.
fn check_prefixes_of_zero(text: &[u8], report: &mut Report) -> Result<(), AllocError> {
    report.begin("each beginning of a text of one line")?;
    for length in 0..text.len() {
        let wanted = if length == 0 {
            "E5"
        } else if length.saturating_add(1) < text.len() {
            "E1"
        } else {
            "exit 0"
        };
        let said = interpreted(report.alloc, &[&text[..length]], &[], 9)?;
        report.compare("beginning", wanted, number(said.end.as_str()))?;
    }
    Ok(())
}

// Each is refused as no text of the grammar or for want of a `main`, or accepted.
fn check_prefixes(name: &str, text: &[u8], report: &mut Report) -> Result<(), AllocError> {
    begin(report, format_args!("each beginning of {name}"))?;
    for length in 0..text.len() {
        let said = interpreted(report.alloc, &[&text[..length]], &[], 100_000)?;
        let number = number(said.end.as_str());
        let is_possible = number == "E1" || number == "E5" || !number.starts_with("E");
        report.holds("beginning", is_possible)?;
    }
    Ok(())
}

fn check_byte(text: &[u8], byte: u8, report: &mut Report) -> Result<(), AllocError> {
    begin(report, format_args!("byte {byte} at each place"))?;
    for place in 0..text.len() {
        let mut changed = Vec::from_slice(report.alloc, &text[..place])?;
        changed.push(byte)?;
        changed.extend_from_slice(&text[place..])?;
        let said = interpreted(report.alloc, &[changed.as_slice()], &[], 9)?;
        report.compare("byte", "E1", number(said.end.as_str()))?;
    }
    Ok(())
}

fn check_case(name: &str, text: &[u8], report: &mut Report) -> Result<(), AllocError> {
    match name {
        "zero" => {
            check_prefixes_of_zero(text, report)?;
            check_byte(text, 13, report)?;
            check_byte(text, 0, report)
        }
        "sum_loop" | "data_layout" => check_prefixes(name, text, report),
        _ => Ok(()),
    }
}

/// Checks beginnings of texts of the table.
pub fn check(cases: &[Case], report: &mut Report) -> Result<(), AllocError> {
    for case in cases {
        if let Some(text) = case.texts.first() {
            check_case(case.name.as_str(), text.as_slice(), report)?;
        }
    }
    Ok(())
}
