//! The steps of the back end.
use rv_isa::decode::decode;
use rv_isa::encode::encode;
use rv_isa::text::text;
use std::alloc::Global;
use text_maker::{TextMaker, say};

/// Adds the instruction of a word, which has to be encoded as that word.
fn add_word(out: &mut TextMaker, alloc: Global, word: u32) {
    match decode(word) {
        Some(instruction) if encode(instruction) == word => match text(alloc, instruction) {
            Ok(shown) => say!(out; "{shown}\n"),
            Err(_) => out.add("refused\n"),
        },
        Some(_) => out.add("encoded otherwise\n"),
        None => out.add("none\n"),
    }
}

/// The instruction of each word: words in hexadecimal, one on a line.
pub fn instructions(alloc: Global, words: &str) -> Option<String> {
    let mut out = TextMaker::new(alloc);
    for digits in words.lines() {
        match u32::from_str_radix(digits, 16) {
            Ok(word) => add_word(&mut out, alloc, word),
            Err(_) => out.add("no word\n"),
        }
    }
    out.finish().ok()
}
