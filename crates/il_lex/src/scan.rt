//! The next token of a list of bytes.

ghost use Rattle.std.specs.Prelude.{◌≡◌, ◌+◌, ◌-◌, ◌^◌, ◌<◌, ◌≤◌, length, IfSome};
ghost use Rattle.il_lex.specs.Next.{IsAhead};
ghost use Rattle.il_lex.specs.Scan.{scan, scan_from, comment, ended, natural, name, negative, quoted, lexeme, symbol_of, number_from, line_end};

use crate::bytes::{
    begins_quote, begins_word, comment_len, digits_len, is_ended, is_word_start, spacing_len,
    word_len,
};
use crate::kind::{Kind, Symbol};
use crate::quoted::items_len;

/// What stands next in a list of bytes.
#[derive(Clone, Copy)]
pub enum Ahead {
    /// No token: spacing at most, and perhaps a comment.
    End,
    /// Something that is no token.
    Bad,
    /// A token of `len` bytes behind `gap` bytes of spacing and comment.
    Found { kind: Kind, gap: usize, len: usize },
}

/// The value of decimal digits, if it fits.
fn number(digits: &[u8]) -> Option<u64>
    ensures { result ≡ number_from 0 digits.now }
{
    let mut value: u64 = 0;
    for digit in digits {
        let digit = u64::from(digit.saturating_sub(b'0'));
        value = value.checked_mul(10)?.checked_add(digit)?;
    }
    Some(value)
}

#[tactic(auto, unfolding(crate::specs::Scan::natural))]
fn natural(bytes: &[u8]) -> Option<(Kind, usize)>
    ensures value { result ≡ natural bytes.now }
    ensures bound { IfSome result (λ token. token.1 ≤ length bytes.now) }
{
    let len = digits_len(bytes);
    let value = number(&bytes[..len])?;
    Some((Kind::Natural(value), len))
}

/// A name behind its sigil.
#[tactic(auto, unfolding(crate::specs::Scan::name))]
fn name(kind: Kind, bytes: &[u8]) -> Option<(Kind, usize)>
    ensures value { result ≡ name kind bytes.now }
    ensures bound { IfSome result (λ token. token.1 ≤ length bytes.now + 1) }
{
    let len = word_len(bytes);
    if begins_word(bytes) && len <= 255 {
        Some((kind, 1 + len))
    } else {
        None
    }
}

/// Digits behind a minus sign.
#[tactic(auto, unfolding(crate::specs::Scan::negative))]
fn negative(bytes: &[u8]) -> Option<(Kind, usize)>
    ensures value { result ≡ negative bytes.now }
    ensures bound { IfSome result (λ token. token.1 ≤ length bytes.now + 1) }
{
    let len = digits_len(bytes);
    if len == 0 {
        return None;
    }
    let amount = number(&bytes[..len])?;
    if amount <= 1 << 63 {
        Some((Kind::Negative(amount.wrapping_neg()), 1 + len))
    } else {
        None
    }
}

/// A string behind its first quote.
#[tactic(auto, unfolding(crate::specs::Scan::quoted))]
fn quoted(bytes: &[u8]) -> Option<(Kind, usize)>
    ensures value { result ≡ quoted bytes.now }
    ensures bound { IfSome result (λ token. token.1 ≤ length bytes.now + 1) }
{
    let len = items_len(bytes);
    if begins_quote(&bytes[len..]) {
        Some((Kind::Quoted, 2 + len))
    } else {
        None
    }
}

#[tactic(auto, unfolding(crate::specs::Scan::symbol_of))]
fn symbol_of(b: u8) -> Option<Symbol>
    ensures { result ≡ symbol_of b }
{
    match b {
        b',' => Some(Symbol::Comma),
        b'=' => Some(Symbol::Equals),
        b'{' => Some(Symbol::LeftBrace),
        b'}' => Some(Symbol::RightBrace),
        b'(' => Some(Symbol::LeftParen),
        b')' => Some(Symbol::RightParen),
        b'+' => Some(Symbol::Plus),
        _ => None,
    }
}

/// The token at the front that is no symbol and no end of a line.
#[tactic(auto, unfolding(crate::specs::Scan::lexeme))]
fn lexeme(bytes: &[u8]) -> Option<(Kind, usize)>
    ensures value { result ≡ lexeme bytes.now }
    ensures bound { IfSome result (λ token. token.1 ≤ length bytes.now) }
{
    let (first, rest) = bytes.split_first()?;
    if is_word_start(*first) {
        return Some((Kind::Word, 1 + word_len(rest)));
    }
    if first.is_ascii_digit() {
        return natural(bytes);
    }
    match *first {
        b'$' => name(Kind::Global, rest),
        b'%' => name(Kind::Temp, rest),
        b'@' => name(Kind::Label, rest),
        b'-' => negative(rest),
        b'"' => quoted(rest),
        _ => None,
    }
}

/// What stands behind `gap` bytes and a `#`.
#[tactic(auto, unfolding(crate::specs::Scan::comment))]
fn comment(gap: usize, bytes: &[u8]) -> Ahead
    requires { gap + length bytes.now < 2 ^ 64 - 1 }
    ensures { result ≡ comment gap bytes.now }
{
    let len = comment_len(bytes);
    let gap = gap + 1 + len;
    match bytes[len..].first() {
        None => Ahead::End,
        Some(b'\n') => Ahead::Found {
            kind: Kind::Newline,
            gap,
            len: 1,
        },
        Some(_) => Ahead::Bad,
    }
}

/// What stands behind `gap` bytes.
#[tactic(auto, unfolding(crate::specs::Scan::scan_from))]
fn scan_from(gap: usize, bytes: &[u8]) -> Ahead
    requires { gap + length bytes.now < 2 ^ 64 }
    ensures { result ≡ scan_from gap bytes.now }
{
    let Some((first, rest)) = bytes.split_first() else {
        return Ahead::End;
    };
    if *first == b'\n' {
        return Ahead::Found {
            kind: Kind::Newline,
            gap,
            len: 1,
        };
    }
    if *first == b'#' {
        return comment(gap, rest);
    }
    if let Some(symbol) = symbol_of(*first) {
        return Ahead::Found {
            kind: Kind::Symbol(symbol),
            gap,
            len: 1,
        };
    }
    match lexeme(bytes) {
        Some((kind, len)) if is_ended(&bytes[len..]) => Ahead::Found { kind, gap, len },
        _ => Ahead::Bad,
    }
}

/// The next token of `bytes`.
#[tactic(auto, unfolding(crate::specs::Scan::scan))]
pub fn scan(bytes: &[u8]) -> Ahead
    ensures value { result ≡ scan bytes.now }
    ensures meaning { IsAhead bytes.now result }
{
    let gap = spacing_len(bytes);
    scan_from(gap, &bytes[gap..])
}
