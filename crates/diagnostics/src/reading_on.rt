//! Reading on behind a mistake against the grammar.
use crate::note::Gathered;
use crate::remark::{Remark, make_remark};
use crate::syntax::add_unexpected;
use il_reader::error::ReadError;
use il_reader::read::{read, stop};
use std::alloc::{AllocError, Global};
use text_maker::TextMaker;

/// The first mistakes against the grammar in the functions and data of a text behind the place where the reading of it ended.
pub fn behind_stop(alloc: Global, number: usize, bytes: &[u8]) -> Result<Vec<Remark>, AllocError> {
    let mut remarks = Gathered::new(alloc);
    let mut at = 0;
    let mut line: usize = 1;
    let mut head = next_head(bytes, stop(alloc, bytes));
    for _ in 0..usize::MAX {
        let Some(start) = head else {
            break;
        };
        head = next_head(bytes, behind_head(bytes, start));
        let part = bytes.get(start..head.unwrap_or(bytes.len())).unwrap_or(&[]);
        match read(alloc, part) {
            Ok(_) => {}
            Err(ReadError::Memory) => remarks.add(Err(AllocError)),
            Err(ReadError::Syntax { .. }) => {
                let stopped = start.saturating_add(stop(alloc, part));
                let between = bytes.get(at..stopped).unwrap_or(&[]);
                line = line.saturating_add(between.iter().filter(|byte| **byte == b'\n').count());
                at = stopped;
                let mut words = TextMaker::new(alloc);
                add_unexpected(&mut words, bytes.get(at..).unwrap_or(&[]));
                remarks.add(make_remark(None, number, line, words));
            }
        }
    }
    remarks.finish()
}

/// The first place from here on that a function or a datum begins at: here, or at the first word of a later line.
fn next_head(bytes: &[u8], from: usize) -> Option<usize> {
    let mut is_first = true;
    for (number, byte) in bytes.get(from..).unwrap_or(&[]).iter().enumerate() {
        let at = from.saturating_add(number);
        if is_first && (begins_body(bytes, at) || is_word(bytes, at, b"export")) {
            return Some(at);
        }
        is_first = *byte == b'\n' || is_first && (*byte == b' ' || *byte == b'\t');
    }
    None
}

/// Where the head of the next function or datum may begin: behind the words of the one at a place.
fn behind_head(bytes: &[u8], start: usize) -> usize {
    let behind = start.saturating_add(1);
    if !is_word(bytes, start, b"export") {
        return behind;
    }
    let mut places = behind..bytes.len();
    match places.find(|at| begins_body(bytes, *at) || bytes.get(*at) == Some(&b'{')) {
        Some(at) if begins_body(bytes, at) => at.saturating_add(1),
        _ => behind,
    }
}

/// Whether `function` or `data` stands at a place.
fn begins_body(bytes: &[u8], at: usize) -> bool {
    is_word(bytes, at, b"function") || is_word(bytes, at, b"data")
}

/// Whether this word stands at a place, and no longer one.
fn is_word(bytes: &[u8], at: usize, word: &[u8]) -> bool {
    let rest = bytes.get(at..).unwrap_or(&[]);
    rest.starts_with(word) && !rest.get(word.len()).is_some_and(|byte| is_in_word(*byte))
}

fn is_in_word(byte: u8) -> bool {
    byte.is_ascii_alphanumeric() || matches!(byte, b'_' | b'.' | b'$')
}
