//! Lines and names of the texts that are run.
use crate::name::{Named, name_in};
use il_ast::{Func, InText};
use il_interp::pieces::Running;
use il_interp::trace::Place;
use memchr::memchr;
use obj_link::Linked;
use std::str;
use text_maker::{TextMaker, say};

/// Texts that are a program, with the paths of their files and with what these hold, in the same order.
#[derive(Drop)]
pub struct Source<'a> {
    pub linked: &'a Linked<'a>,
    pub paths: &'a [&'a str],
    pub texts: &'a [&'a [u8]],
}

/// What is told so far of a run of a program.
#[derive(Drop)]
pub struct Story<'a> {
    pub words: TextMaker,
    pub source: &'a Source<'a>,
    pub running: &'a Running<'a>,
}

/// A function by its number.
pub fn function_at<'a>(source: &Source<'a>, number: usize) -> Option<&'a InText<&'a Func>> {
    source.linked.functions.as_slice().get(number)
}

/// The name of a function.
pub fn function_name<'a>(source: &'a Source<'_>, number: usize) -> Named<'a> {
    match function_at(source, number) {
        Some(function) => name_in(source.linked, function.text, function.item.name),
        None => Named::global("?"),
    }
}

/// Adds where a turn is due: how it stands there, and what is written in its line.
pub fn add_turn(words: &mut TextMaker, source: &Source<'_>, place: Place, how: &str) {
    add_place(words, source, place);
    let name = function_name(source, place.function);
    say!(words; ": {how} {name}: {}", written(source, place));
}

/// Adds the file and the line of a turn.
pub fn add_place(words: &mut TextMaker, source: &Source<'_>, place: Place) {
    if let Some(function) = function_at(source, place.function) {
        let path = source.paths.get(function.text).copied().unwrap_or("?");
        say!(words; "{path}:{}", place.line(source.linked));
    }
}

/// What stands in the line of a turn, up to its comment. Lines of functions have no strings.
fn written<'a>(source: &Source<'a>, place: Place) -> &'a str {
    let Some(function) = function_at(source, place.function) else {
        return "";
    };
    let text = source.texts.get(function.text).copied().unwrap_or(&[]);
    let line = line_in(text, place.line(source.linked));
    str::from_utf8(before(b'#', line)).unwrap_or("?").trim()
}

/// The line of a text with this number, counted from 1, without its end.
fn line_in(text: &[u8], number: usize) -> &[u8] {
    let mut rest = text;
    for _before in 1..number {
        rest = match memchr(b'\n', rest) {
            Some(end) => rest.get(end.saturating_add(1)..).unwrap_or(&[]),
            None => &[],
        };
    }
    before(b'\n', rest)
}

/// What stands before the first such byte, or all where there is none.
fn before(byte: u8, bytes: &[u8]) -> &[u8] {
    let end = memchr(byte, bytes).unwrap_or(bytes.len());
    bytes.get(..end).unwrap_or(bytes)
}
