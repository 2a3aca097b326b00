//! Programs, interpreted.
use crate::told::end_told;
use il_interp::interpret::interpret;
use obj_link::linking::resolve::resolve;
use qbec::CompileError;
use qbec::error::link_refusal;
use qbec::texts::checked_texts;
use std::alloc::{AllocError, Global};
use std::str;
use test_report::told::Told;

/// A refusal that names a name.
fn name_told(alloc: Global, number: &str, name: &[u8]) -> Result<String, AllocError> {
    let name = str::from_utf8(name).unwrap_or("bytes");
    format!(in alloc; "{number} ${name}")
}

/// What refused texts are told.
pub fn refusal_told(alloc: Global, error: CompileError) -> Result<String, AllocError> {
    match error {
        CompileError::Syntax { text, line } => format!(in alloc; "E1 text {text} line {line}"),
        CompileError::Rule { text, fault } => {
            let rule = fault.rule.number();
            let line = fault.line;
            format!(in alloc; "E2 C{rule} text {text} line {line}")
        }
        CompileError::UnknownName(name) => name_told(alloc, "E3", name.as_slice()),
        CompileError::ExportedTwice(name) => name_told(alloc, "E4", name.as_slice()),
        CompileError::NoMain => String::from_str(alloc, "E5"),
        CompileError::Limit => String::from_str(alloc, "E6"),
        CompileError::Memory => String::from_str(alloc, "E7"),
    }
}

fn refused(alloc: Global, error: CompileError) -> Result<Told, AllocError> {
    Ok(Told {
        end: refusal_told(alloc, error)?,
        output: Vec::new(alloc),
    })
}

/// How the program of the texts ends within so many turns, or why they are none.
pub fn interpreted(
    alloc: Global,
    texts: &[&[u8]],
    words: &[&[u8]],
    turns: u64,
) -> Result<Told, AllocError> {
    let checked = match checked_texts(alloc, texts) {
        Ok(checked) => checked,
        Err(error) => return refused(alloc, error),
    };
    let linked = match resolve(alloc, checked.as_slice()) {
        Ok(linked) => linked,
        Err(error) => return refused(alloc, link_refusal(alloc, error)),
    };
    match interpret(alloc, &linked, words, turns) {
        Ok((output, end)) => Ok(Told {
            end: end_told(alloc, end)?,
            output,
        }),
        Err(error) => Ok(Told {
            end: format!(in alloc; "{error}")?,
            output: Vec::new(alloc),
        }),
    }
}
