//! The tokens of a text, one after another.

ghost use Rattle.std.specs.Prelude.{◌≡◌};
ghost use Rattle.il_lex.specs.Next.{line_ends};

use crate::kind::Kind;
use crate::scan::{Ahead, scan};
use std::marker::Model;

/// The bytes of a text from `start` up to `end`.
#[derive(Clone, Copy)]
pub struct Span {
    pub start: usize,
    pub end: usize,
}

/// A token of a text.
#[derive(Clone, Copy)]
pub struct Token<'a> {
    pub kind: Kind,
    /// The bytes of the span.
    pub text: &'a [u8],
    pub span: Span,
    /// The line of the first byte, from 1.
    pub line: usize,
}

/// A line, from 1, on which something is no token.
#[derive(Clone, Copy, Drop)]
pub struct LexError {
    pub line: usize,
}

fn line_ends(kind: Kind) -> usize
    ensures { result ≡ line_ends kind }
{
    match kind {
        Kind::Newline => 1,
        _ => 0,
    }
}

/// Reads the tokens of a text. A clause sees the text and how many of its bytes have been read.
#[derive(Drop)]
pub struct Tokens<'a> {
    text: &'a [u8],
    at: usize,
    line: usize,
}

impl<'a> Model for Tokens<'a> {
    ghost use Rattle.std.specs.Prelude.{◌≡◌, ◌≤◌, length};
    ghost use Rattle.il_lex.specs.Place.{Place};
    ghost use Rattle.il_lex.specs.Next.{line_at};

    ghost Value = { Place };

    ghost view = { λ t. record { text = t.text.now; at = t.at } };

    ghost invariant = { λ t. (t.at ≤ length t.text.now) × (t.line ≡ line_at t.text.now t.at) };
}

impl<'a> Tokens<'a> {
    ghost use Rattle.std.specs.Prelude.{◌≡◌};
    ghost use Rattle.il_lex.specs.Token.{Answers};

    /// The tokens of `text`, of which none has been read.
    pub fn new(text: &'a [u8]) -> Tokens<'a>
        ensures { result ≡ record { text = text.now; at = 0 } }
    {
        Tokens {
            text,
            at: 0,
            line: 1,
        }
    }

    /// The next token; nothing where none is left, an error where something else stands. Neither is
    /// passed, so that each later call answers the same.
    pub fn next(&mut self) -> Option<Result<Token<'a>, LexError>>
        ensures { Answers self.old result self.new }
    {
        let rest = &self.text[self.at..];
        match scan(rest) {
            Ahead::End => None,
            Ahead::Bad => Some(Err(LexError { line: self.line })),
            Ahead::Found { kind, gap, len } => {
                let start = self.at + gap;
                let end = start + len;
                let token = Token {
                    kind,
                    text: &self.text[start..end],
                    span: Span { start, end },
                    line: self.line,
                };
                self.at = end;
                self.line += line_ends(kind);
                Some(Ok(token))
            }
        }
    }
}
