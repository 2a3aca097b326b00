//! Why a call finds too little stack.
use crate::trace::source::{Source, Story, function_at, function_name};
use crate::trace::turn::value_of;
use il_ast::limits::STACK_ROOM;
use il_ast::{Callee, Inst, Value};
use il_interp::trace::Place;
use il_types::cost::capped_need;
use std::alloc::{AllocError, Global};
use text_maker::{TextMaker, say};

/// So many functions are told.
const MOST_FUNCTIONS: usize = 20;

/// What a function needs.
fn need_of(source: &Source<'_>, number: usize) -> u64 {
    function_at(source, number).map_or(0, |function| capped_need(function.item))
}

/// Adds that a call of a function needs more bytes than so many that are left.
fn add_need(words: &mut TextMaker, source: &Source<'_>, number: usize, left: u64) {
    let name = function_name(source, number);
    let need = need_of(source, number);
    say!(words; "    {name} needs {need} bytes of stack, and {left} are left\n");
}

/// Adds why a program comes to no turn.
pub fn add_need_of_main(words: &mut TextMaker, source: &Source<'_>) {
    add_need(words, source, source.linked.main, u64::from(STACK_ROOM));
}

/// Adds what the call of a turn needs, and what each function has of the stack that the turn stands in.
pub fn add_needs(alloc: Global, story: &mut Story<'_>, place: Place) -> Result<(), AllocError> {
    let source = story.source;
    let mut calls = vec![in alloc; 0u64; source.linked.functions.len()]?;
    count(&mut calls, place.function);
    for number in 0..story.running.callers() {
        if let Some(caller) = story.running.caller(number) {
            count(&mut calls, caller.function);
        }
    }
    if let Some(number) = called(story, place) {
        let mut left = u64::from(STACK_ROOM);
        for (number, count) in calls.as_slice().iter().enumerate() {
            left = left.saturating_sub(count.saturating_mul(need_of(source, number)));
        }
        add_need(&mut story.words, source, number, left);
    }
    add_shares(&mut story.words, source, calls.as_slice());
    Ok(())
}

/// The function that a turn calls.
fn called(story: &Story<'_>, place: Place) -> Option<usize> {
    let text = function_at(story.source, place.function)?.text;
    let Some(Inst::Call { callee, .. }) = place.instruction(story.source.linked) else {
        return None;
    };
    match value_of(story, text, callee)? {
        Value::Function(Callee::Defined(number)) => Some(number),
        _ => None,
    }
}

fn count(calls: &mut Vec<u64>, number: usize) {
    if let Some(count) = calls.get_mut(number) {
        *count = count.saturating_add(1);
    }
}

/// Adds a line for each function that is called, as far as they are told.
fn add_shares(words: &mut TextMaker, source: &Source<'_>, calls: &[u64]) {
    let called = calls.iter().enumerate().filter(|(_, count)| **count > 0);
    for (number, count) in called.take(MOST_FUNCTIONS) {
        let (plural, each) = match count {
            1 => ("", ""),
            _ => ("s", " each"),
        };
        let name = function_name(source, number);
        let need = need_of(source, number);
        say!(words; "    {count} call{plural} of {name} with {need} bytes{each}\n");
    }
}
