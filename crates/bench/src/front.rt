//! How fast texts are read, checked, linked and compiled.
use obj_link::linking::resolve::resolve;
use qbec::compile::compile;
use qbec::texts::checked_texts;
use regalloc::linear_scan::LinearScan;
use std::alloc::{AllocError, Global};

/// What becomes of a text that is read, checked and linked.
pub fn link_text(alloc: Global, text: &[u8]) -> Result<String, AllocError> {
    let checked = match checked_texts(alloc, &[text]) {
        Ok(checked) => checked,
        Err(error) => return format!(in alloc; "{error:?}"),
    };
    let lines = checked.first().map_or(0, |checked| checked.text.lines);
    match resolve(alloc, checked.as_slice()) {
        Ok(linked) => {
            let functions = linked.functions.len();
            format!(in alloc; "{lines} lines and {functions} functions are a program")
        }
        Err(error) => format!(in alloc; "{error}"),
    }
}

/// What becomes of a text that is compiled.
pub fn compile_text(alloc: Global, text: &[u8]) -> Result<String, AllocError> {
    match compile(alloc, &[text], &mut LinearScan::new(alloc)) {
        Ok(file) => {
            let length = file.len();
            format!(in alloc; "a file of {length} bytes")
        }
        Err(error) => format!(in alloc; "{error:?}"),
    }
}
