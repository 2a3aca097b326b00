//! Functions from texts, and as texts.
use crate::code_text::place::Place;
use crate::code_text::read::read;
use crate::code_text::rules::check::is_function;
use crate::code_text::write::written;
use std::alloc::{AllocError, Global};
use vcode::{Code, LFunc, VFunc};

/// Whether two texts have the same lines, but for the spacing around each.
pub fn is_same(text: &str, other: &str) -> bool {
    text.trim()
        .lines()
        .map(|line| line.trim())
        .eq(other.trim().lines().map(|line| line.trim()))
}

/// The code of a text that is written of it.
fn read_back<P: Place>(alloc: Global, text: &str) -> Option<(u32, Code<P>)> {
    let (count, code) = read(alloc, text.trim())?;
    let back = written(alloc, count, &code).ok()?;
    is_same(text, back.as_str()).then_some((count, code))
}

/// The function in virtual code that a text describes. None where the text isn't what is written of a function, or memory is refused.
pub fn virtual_function(alloc: Global, text: &str) -> Option<VFunc> {
    let (registers, code) = read_back(alloc, text)?;
    if is_function(registers, &code) {
        Some(VFunc { code, registers })
    } else {
        None
    }
}

/// The function in location code that a text describes. None where the text isn't what is written of a function, or memory is refused.
pub fn located_function(alloc: Global, text: &str) -> Option<LFunc> {
    let (slots, code) = read_back(alloc, text)?;
    if is_function(slots, &code) {
        Some(LFunc { code, slots })
    } else {
        None
    }
}

/// The text of a function in virtual code.
///
/// # Errors
///
/// Only where memory was refused.
pub fn virtual_text(alloc: Global, function: &VFunc) -> Result<String, AllocError> {
    written(alloc, function.registers, &function.code)
}

/// The text of a function in location code.
///
/// # Errors
///
/// Only where memory was refused.
pub fn located_text(alloc: Global, function: &LFunc) -> Result<String, AllocError> {
    written(alloc, function.slots, &function.code)
}
