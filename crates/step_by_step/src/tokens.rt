//! The tokens of a text, each on a line: its line, its span and its kind, and the bytes that a string stands for.
use crate::hexadecimal::bytes_of;
use il_lex::kind::Kind;
use il_lex::quoted::string_bytes;
use il_lex::tokens::{Span, Tokens};
use std::alloc::Global;
use text_maker::{TextMaker, say};

/// What a call of `next` shows: a token with its line, an error on a line, or the end.
#[derive(Clone, Copy)]
enum Seen {
    Token(Kind, Span, usize),
    Error(usize),
    End,
}

fn next_of(tokens: &mut Tokens<'_>) -> Seen {
    match tokens.next() {
        Some(Ok(token)) => Seen::Token(token.kind, token.span, token.line),
        Some(Err(error)) => Seen::Error(error.line),
        None => Seen::End,
    }
}

/// Whether six calls more show the same end, or an error on the same line.
fn stays(tokens: &mut Tokens<'_>, last: Seen) -> bool {
    (0..6).all(|_| match (next_of(tokens), last) {
        (Seen::Error(line), Seen::Error(own)) => line == own,
        (Seen::End, Seen::End) => true,
        _ => false,
    })
}

/// The bytes that a string stands for.
fn add_string(out: &mut TextMaker, alloc: Global, string: &[u8]) {
    let Ok(bytes) = string_bytes(alloc, string) else {
        out.add(" is refused");
        return;
    };
    out.add(" is");
    for byte in bytes.as_slice() {
        say!(out; " {byte}");
    }
}

fn add_seen(out: &mut TextMaker, alloc: Global, text: &[u8], seen: Seen) {
    match seen {
        Seen::Token(kind, span, line) => {
            let (start, end) = (span.start, span.end);
            say!(out; "{line} {start}..{end} {kind:?}");
            if matches!(kind, Kind::Quoted) {
                add_string(out, alloc, text.get(start..end).unwrap_or(&[]));
            }
        }
        Seen::Error(line) => say!(out; "error on line {line}"),
        Seen::End => out.add("end"),
    }
    out.add("\n");
}

/// The tokens of a text, up to its end or to an error.
pub fn tokens(alloc: Global, text: &str) -> Option<String> {
    let bytes = bytes_of(alloc, text).ok()?;
    let mut out = TextMaker::new(alloc);
    let mut tokens = Tokens::new(bytes.as_slice());
    for _ in 0..=bytes.len() {
        let seen = next_of(&mut tokens);
        add_seen(&mut out, alloc, bytes.as_slice(), seen);
        if !matches!(seen, Seen::Token(..)) {
            let is_end = stays(&mut tokens, seen);
            out.add(if is_end { "" } else { "and more\n" });
            break;
        }
    }
    out.finish().ok()
}
