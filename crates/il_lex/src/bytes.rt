//! Runs of bytes of one class.

ghost use Rattle.std.specs.Prelude.{◌≡◌, ◌≤◌, length};
ghost use Rattle.std.specs.List.{prefix_len};
ghost use Rattle.il_lex.specs.Quoted.{is_spacing, is_digit, is_octal, is_word_start, is_word_part, is_in_comment, ends_token, is_symbol};
ghost use Rattle.il_lex.specs.Scan.{is_ended, begins_word, begins_quote};

use memchr::memchr2;

pub(crate) fn is_spacing(b: u8) -> bool
    ensures { result ≡ is_spacing b }
{
    b == b' ' || b == b'\t'
}

pub(crate) fn is_octal(b: u8) -> bool
    ensures { result ≡ is_octal b }
{
    b'0' <= b && b <= b'7'
}

pub(crate) fn is_word_start(b: u8) -> bool
    ensures { result ≡ is_word_start b }
{
    b.is_ascii_alphabetic() || b == b'_' || b == b'.'
}

fn is_word_part(b: u8) -> bool
    ensures { result ≡ is_word_part b }
{
    b.is_ascii_alphabetic() || b.is_ascii_digit() || matches!(b, b'_' | b'.' | b'$')
}

fn is_symbol(b: u8) -> bool
    ensures { result ≡ is_symbol b }
{
    matches!(b, b',' | b'=' | b'{' | b'}' | b'(' | b')' | b'+')
}

fn ends_token(b: u8) -> bool
    ensures { result ≡ ends_token b }
{
    is_spacing(b) || b == b'\n' || b == b'#' || is_symbol(b)
}

/// Whether a token that stands right before these bytes is ended.
pub(crate) fn is_ended(bytes: &[u8]) -> bool
    ensures { result ≡ is_ended bytes.now }
{
    match bytes.first() {
        None => true,
        Some(b) => ends_token(*b),
    }
}

pub(crate) fn begins_word(bytes: &[u8]) -> bool
    ensures { result ≡ begins_word bytes.now }
{
    match bytes.first() {
        None => false,
        Some(b) => is_word_start(*b),
    }
}

pub(crate) fn begins_quote(bytes: &[u8]) -> bool
    ensures { result ≡ begins_quote bytes.now }
{
    match bytes.first() {
        None => false,
        Some(b) => *b == b'"',
    }
}

pub(crate) fn spacing_len(bytes: &[u8]) -> usize
    ensures value { result ≡ prefix_len is_spacing bytes.now }
    ensures bound { result ≤ length bytes.now }
{
    bytes.iter().take_while(|b| is_spacing(**b)).count()
}

pub(crate) fn word_len(bytes: &[u8]) -> usize
    ensures value { result ≡ prefix_len is_word_part bytes.now }
    ensures bound { result ≤ length bytes.now }
{
    bytes.iter().take_while(|b| is_word_part(**b)).count()
}

pub(crate) fn digits_len(bytes: &[u8]) -> usize
    ensures value { result ≡ prefix_len is_digit bytes.now }
    ensures bound { result ≤ length bytes.now }
{
    bytes.iter().take_while(|b| b.is_ascii_digit()).count()
}

/// How many bytes a comment has behind its `#`.
pub(crate) fn comment_len(bytes: &[u8]) -> usize
    ensures value { result ≡ prefix_len is_in_comment bytes.now }
    ensures bound { result ≤ length bytes.now }
{
    match memchr2(b'\n', b'\r', bytes) {
        Some(len) => len,
        None => bytes.len(),
    }
}
