//! Lines of what is wrong with a text beside what it is refused for.
use diagnostics::reading_on::behind_stop;
use diagnostics::remark::Remark;
use diagnostics::text::other_rules;
use qbec::CompileError;
use std::alloc::{AllocError, Global};

/// Lines of what is wrong with a text beside what it is refused for, each with its line end: those of lines before that one, and those of it and of lines behind it. No
/// contract says more of them.
#[derive(Drop)]
pub struct OtherLines {
    pub before: String,
    pub behind: String,
}

impl OtherLines {
    /// No line.
    pub fn none(alloc: Global) -> OtherLines {
        OtherLines {
            before: String::new(alloc),
            behind: String::new(alloc),
        }
    }
}

/// What else is wrong with the text with this number, of this path, that is refused so.
///
/// # Errors
///
/// Only where memory was refused.
pub(crate) fn other_lines(
    alloc: Global,
    path: &str,
    number: usize,
    bytes: &[u8],
    refusal: &CompileError,
) -> Result<OtherLines, AllocError> {
    let mut lines = OtherLines::none(alloc);
    let (line, remarks) = match refusal {
        CompileError::Syntax { text: _, line } => (*line, behind_stop(alloc, number, bytes)?),
        CompileError::Rule { text: _, fault } => {
            (fault.line, other_rules(alloc, number, bytes, *fault)?)
        }
        _ => return Ok(lines),
    };
    for remark in remarks.as_slice() {
        if remark.note.line < line {
            push_line(&mut lines.before, path, remark)?;
        } else {
            push_line(&mut lines.behind, path, remark)?;
        }
    }
    Ok(lines)
}

fn push_line(lines: &mut String, path: &str, remark: &Remark) -> Result<(), AllocError> {
    let line = remark.note.line;
    let words = remark.note.words.as_str();
    write!(lines, "{path}:{line}: error: {words} [")?;
    match remark.rule {
        Some(rule) => {
            let number = rule.number();
            write!(lines, "E2 C{number}")?;
        }
        None => lines.push_str("E1")?,
    }
    lines.push_str("]\n")
}
