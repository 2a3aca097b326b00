//! Orders of the blocks of a function.
use crate::code_text::function::virtual_function;
use crate::lists::{add_numbers, numbers};
use crate::passes::shown_or_refused;
use block_layout::placement::choice::chains::chained;
use block_layout::placement::order::in_order;
use std::alloc::Global;
use text_maker::TextMaker;

/// The order that is chosen for the blocks of a function.
pub fn chosen(alloc: Global, text: &str) -> Option<String> {
    let function = virtual_function(alloc, text)?;
    let order = chained(alloc, function.code.blocks.as_slice()).ok()?;
    let mut text = TextMaker::new(alloc);
    add_numbers(&mut text, order.as_slice());
    text.finish().ok()
}

/// The function with its blocks in this order.
pub fn in_given_order(alloc: Global, text: &str, order: &str) -> Option<String> {
    let order = numbers(alloc, order)?;
    let function = virtual_function(alloc, text)?;
    shown_or_refused(alloc, in_order(alloc, &function, order.as_slice()))
}
