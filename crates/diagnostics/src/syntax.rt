//! What stands where the reading of a text ended.
use il_lex::kind::Kind;
use il_lex::scan::{Ahead, scan};
use std::str;
use text_maker::{TextMaker, say};

/// Says what stands at the front of these bytes, which isn't what the grammar has there.
pub fn add_unexpected(words: &mut TextMaker, rest: &[u8]) {
    match scan(rest) {
        Ahead::End => words.add("the text ends here, and isn't whole"),
        Ahead::Bad => add_bad(words, rest),
        Ahead::Found {
            kind: Kind::Newline,
            ..
        } => words.add("the line ends here, where more has to stand"),
        Ahead::Found { kind: _, gap, len } => {
            let behind = rest.get(gap..).unwrap_or(&[]);
            add_token(words, behind.get(..len).unwrap_or(&[]));
        }
    }
}

fn add_token(words: &mut TextMaker, token: &[u8]) {
    let (start, dots) = match token.get(..40) {
        Some(start) => (start, ".."),
        None => (token, ""),
    };
    let start = str::from_utf8(start).unwrap_or("\"..\"");
    say!(words; "`{start}{dots}` has no place here{}", hint(start));
}

/// What to know of a word that other dialects of the language have, or that stands elsewhere.
fn hint(word: &str) -> &'static str {
    match word {
        "s" | "d" => "; there are no floating-point numbers",
        "sb" | "ub" | "sh" | "uh" => "; arguments and results are w or l",
        "env" | "vastart" | "vaarg" | "..." => "; a call has its arguments and no others",
        "type" => "; there are no aggregate types",
        "thread" | "section" | "dbgfile" | "dbgloc" | "common" => "; leave it away",
        "phi" => "; phis stand before the block's other lines",
        _ => "",
    }
}

/// Says why no token begins behind the spacing.
fn add_bad(words: &mut TextMaker, rest: &[u8]) {
    let first = rest.iter().find(|byte| !matches!(byte, b' ' | b'\t'));
    words.add(match first {
        Some(b'\r' | b'#') => "byte 13 stands here; lines end with byte 10 alone",
        Some(b'"') => "a string that isn't ended, or has what no string has",
        Some(b'$' | b'%' | b'@') => "a name isn't a word of at most 255 bytes",
        Some(b'-' | b'0'..=b'9') => "a number is out of its range",
        Some(b':') => "there are no aggregate types",
        Some(byte) => return say!(words; "no token begins with byte {byte}"),
        None => "no token stands here",
    });
}
