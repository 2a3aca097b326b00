//! The passes on virtual code.
use crate::code_text::function::{virtual_function, virtual_text};
use inlining::calls::inline_calls;
use qbec::Pass;
use std::alloc::{AllocError, Global};
use vcode::VFunc;

/// The text of what a pass made.
pub fn shown(alloc: Global, made: Result<VFunc, AllocError>) -> Option<String> {
    let function = made.ok()?;
    virtual_text(alloc, &function).ok()
}

/// The text of what was made of a function, or that it was refused.
pub fn shown_or_refused(alloc: Global, made: Result<Option<VFunc>, AllocError>) -> Option<String> {
    match made.ok()? {
        Some(function) => virtual_text(alloc, &function).ok(),
        None => String::from_str(alloc, "refused").ok(),
    }
}

/// The function with calls of the global name 0 done in place, which go as this function.
pub fn with_calls_inlined(alloc: Global, text: &str, candidate: &str) -> Option<String> {
    let function = virtual_function(alloc, text)?;
    let candidate = virtual_function(alloc, candidate)?;
    let candidates = vec![in alloc; Some(candidate)].ok()?;
    shown(alloc, inline_calls(alloc, function, candidates.as_slice()))
}

/// What a pass of the compiler makes of a function; none in it where that stays as it is.
pub fn changed_by(alloc: Global, pass: Pass, text: &str) -> Option<Option<String>> {
    let function = virtual_function(alloc, text)?;
    match pass.apply(alloc, &function).ok()? {
        Some(made) => Some(Some(virtual_text(alloc, &made).ok()?)),
        None => Some(None),
    }
}

/// The function by one pass of the compiler.
pub fn by_pass(alloc: Global, pass: Pass, text: &str) -> Option<String> {
    match changed_by(alloc, pass, text)? {
        Some(made) => Some(made),
        None => shown(alloc, Ok(virtual_function(alloc, text)?)),
    }
}
