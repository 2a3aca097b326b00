//! Lists of numbers in texts.
use il_ast::Few;
use std::alloc::Global;
use text_maker::{TextMaker, say};

/// The numbers in a list.
pub fn numbers(alloc: Global, list: &str) -> Option<Few<usize>> {
    let mut numbers = Few::new(alloc);
    for word in list.split_whitespace() {
        numbers.push(word.parse::<usize>().ok()?).ok()?;
    }
    Some(numbers)
}

/// The registers in a list.
pub fn registers(alloc: Global, list: &str) -> Option<Few<u32>> {
    let mut registers = Few::new(alloc);
    for word in list.split_whitespace() {
        registers.push(word.parse::<u32>().ok()?).ok()?;
    }
    Some(registers)
}

/// Adds each of these numbers, with a blank before it.
pub fn add_numbers(text: &mut TextMaker, numbers: &[usize]) {
    for number in numbers {
        say!(text; " {number}");
    }
}
