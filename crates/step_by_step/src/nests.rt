//! Loops of functions.
use crate::code_text::function::virtual_function;
use crate::lists::add_numbers;
use flow::depths::{depths, frequency};
use flow::graph::predecessors;
use std::alloc::Global;
use text_maker::{TextMaker, say};

/// In how many loops each block of a function lies, how often it is run, and from where.
pub fn nests(alloc: Global, text: &str) -> Option<String> {
    let function = virtual_function(alloc, text)?;
    let blocks = function.code.blocks.as_slice();
    let depths = depths(alloc, blocks).ok()?;
    let sources = predecessors(alloc, blocks).ok()?;
    let mut text = TextMaker::new(alloc);
    for block in 0..depths.len().max(sources.len()) {
        say!(text; "{block}:");
        if let Some(depth) = depths.get(block) {
            say!(text; " depth {depth}, {} times", frequency(*depth));
        }
        if let Some(sources) = sources.get(block) {
            text.add(", from");
            add_numbers(&mut text, sources.as_slice());
        }
        text.add("\n");
    }
    text.finish().ok()
}
