//! The steps of the front end.
use crate::hexadecimal::bytes_of;
use crate::show::{show, show_alone};
use il_ast::{Definition, Text};
use il_reader::read::read;
use il_types::CheckError;
use il_types::check::check;
use il_types::cost::{alloc_area, weight};
use promote::promote::promote;
use std::alloc::{AllocError, Global};
use text_maker::{TextMaker, say};

/// The tree of a text, or why it isn't read.
pub fn tree(alloc: Global, text: &str) -> Option<String> {
    let bytes = bytes_of(alloc, text).ok()?;
    match read(alloc, bytes.as_slice()) {
        Ok(tree) => show(alloc, &tree).ok(),
        Err(error) => format!(in alloc; "{error}").ok(),
    }
}

/// The measures of a good text.
fn measures(alloc: Global, text: &Text) -> Result<String, AllocError> {
    let mut out = TextMaker::new(alloc);
    say!(out; "{} bytes\n", text.bytes);
    for definition in text.definitions.as_slice() {
        match definition {
            Definition::Function(function) => {
                let (weight, bytes) = (weight(function), alloc_area(function));
                say!(out; "weight {weight}, {bytes} bytes of locals\n");
            }
            Definition::Object(_) => out.add("data\n"),
        }
    }
    out.finish()
}

fn refusal(alloc: Global, error: CheckError) -> Result<String, AllocError> {
    match error {
        CheckError::Rule(fault) => {
            format!(in alloc; "{error} {:?} line {}", fault.rule, fault.line)
        }
        _ => format!(in alloc; "{error}"),
    }
}

/// The measures of a text that keeps the rules, or why it is refused.
pub fn checked(alloc: Global, text: &str) -> Option<String> {
    let tree = read(alloc, text.as_bytes()).ok()?;
    match check(alloc, tree) {
        Ok(checked) => measures(alloc, &checked.text).ok(),
        Err(error) => refusal(alloc, error).ok(),
    }
}

/// The tree of a text's only function once its locals are promoted.
pub fn promoted(alloc: Global, text: &str) -> Option<String> {
    let tree = read(alloc, text.as_bytes()).ok()?;
    let [Definition::Function(function)] = tree.definitions.as_slice() else {
        return None;
    };
    let function = promote(alloc, function).ok()?;
    show_alone(alloc, &function).ok()
}
