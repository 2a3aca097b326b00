//! Location code whose lines change places.
use crate::code_text::function::{located_function, located_text};
use crate::lists::numbers;
use il_ast::Seq;
use scheduling::schedule::{apply, schedule};
use std::alloc::{AllocError, Global};
use vcode::LFunc;

fn shown(alloc: Global, made: Result<LFunc, AllocError>) -> Option<String> {
    let function = made.ok()?;
    located_text(alloc, &function).ok()
}

/// A function in location code, with lines where less has to be waited for.
pub fn scheduled(alloc: Global, text: &str) -> Option<String> {
    let function = located_function(alloc, text)?;
    shown(alloc, schedule(alloc, function))
}

/// The function with the swaps of a text, which has a line for each block.
pub fn swapped(alloc: Global, text: &str, swaps: &str) -> Option<String> {
    let function = located_function(alloc, text)?;
    let mut plan = Vec::new(alloc);
    for list in swaps.lines() {
        let swaps = numbers(alloc, list)?.as_slice().to_vec(alloc).ok()?;
        plan.push(Seq::from_vec(swaps)).ok()?;
    }
    shown(alloc, apply(alloc, &function, plan.as_slice()))
}
