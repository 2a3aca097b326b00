//! Strings: their items, and what they stand for.

ghost use Rattle.std.specs.Prelude.{◌≡◌, ◌+◌, ◌<◌, ◌≤◌, List, ℕ, ◌++◌, drop, length, take, IfSome, IfOk, OnOk, option_map};
ghost use Rattle.std.specs.List.{prefix_len};
ghost use Rattle.il_lex.specs.Quoted.{is_plain, escaped, IsString};
ghost use Rattle.il_lex.specs.Scan.{octal_third, octal_second, escape, item, items_len, items, string_bytes};

use crate::bytes::is_octal;
use std::alloc::{AllocError, Global};

fn is_plain(b: u8) -> bool
    ensures { result ≡ is_plain b }
{
    (b' ' <= b && b <= b'~' || 128 <= b) && b != b'"' && b != b'\\'
}

fn escaped(c: u8) -> Option<u8>
    ensures { result ≡ escaped c }
{
    match c {
        b'\\' | b'"' => Some(c),
        b'n' => Some(b'\n'),
        b't' => Some(b'\t'),
        b'r' => Some(b'\r'),
        b'b' => Some(8),
        b'f' => Some(12),
        _ => None,
    }
}

/// The item whose first two octal digits are `value`.
fn octal_third(value: u8, bytes: &[u8]) -> Option<(u8, usize)>
    requires { value < 64 }
    ensures value { result ≡ octal_third value bytes.now }
    ensures bound { IfSome result (λ item. item.1 ≤ length bytes.now + 3) }
{
    match bytes.first() {
        Some(digit) if is_octal(*digit) => {
            let value = u8::try_from(u16::from(value) * 8 + u16::from(*digit - b'0')).ok()?;
            Some((value, 4))
        }
        _ => Some((value, 3)),
    }
}

/// The item whose first octal digit is `value`.
fn octal_second(value: u8, bytes: &[u8]) -> Option<(u8, usize)>
    requires { value < 8 }
    ensures value { result ≡ octal_second value bytes.now }
    ensures bound { IfSome result (λ item. item.1 ≤ length bytes.now + 2) }
{
    match bytes.split_first() {
        Some((digit, rest)) if is_octal(*digit) => octal_third(value * 8 + (*digit - b'0'), rest),
        _ => Some((value, 2)),
    }
}

/// The item behind a backslash.
fn escape(bytes: &[u8]) -> Option<(u8, usize)>
    ensures value { result ≡ escape bytes.now }
    ensures bound { IfSome result (λ item. item.1 ≤ length bytes.now + 1) }
{
    let (c, rest) = bytes.split_first()?;
    if is_octal(*c) {
        return octal_second(*c - b'0', rest);
    }
    let byte = escaped(*c)?;
    Some((byte, 2))
}

/// The item at the front: its byte and its length.
#[tactic(auto, unfolding(crate::specs::Scan::item))]
fn item(bytes: &[u8]) -> Option<(u8, usize)>
    ensures value { result ≡ item bytes.now }
    ensures bound { IfSome result (λ item. item.1 ≤ length bytes.now) }
{
    let (b, rest) = bytes.split_first()?;
    if *b == b'\\' {
        escape(rest)
    } else if is_plain(*b) {
        Some((*b, 1))
    } else {
        None
    }
}

/// How many bytes at the front stand for themselves.
fn plain_len(bytes: &[u8]) -> usize
    ensures value { result ≡ prefix_len is_plain bytes.now }
    ensures bound { result ≤ length bytes.now }
{
    bytes.iter().take_while(|b| is_plain(**b)).count()
}

/// The first `n` bytes.
fn front(bytes: &[u8], n: usize) -> &[u8]
    requires { n ≤ length bytes.now }
    ensures { result.now ≡ take n bytes.now }
{
    &bytes[..n]
}

/// The bytes behind the first `n`.
fn behind(bytes: &[u8], n: usize) -> &[u8]
    requires { n ≤ length bytes.now }
    ensures { result.now ≡ drop n bytes.now }
{
    &bytes[n..]
}

/// How many bytes the items at the front have.
pub(crate) fn items_len(bytes: &[u8]) -> usize
    ensures value { result ≡ items_len (length bytes.now) bytes.now }
    ensures bound { result ≤ length bytes.now }
{
    let mut rest = bytes;
    let mut len = 0;
    for _ in 0..bytes.len() {
        let run = plain_len(rest);
        let left = behind(rest, run);
        match item(left) {
            Some((_, n)) => {
                rest = behind(left, n);
                len += run + n;
            }
            None => return len + run,
        }
    }
    len
}

/// Puts what the items at the front stand for at the end of `out`.
fn push_items(bytes: &[u8], out: &mut Vec<u8>) -> Result<(), AllocError>
    ensures { OnOk result (out.new.items ≡ out.old.items ++ items (length bytes.now) bytes.now) }
{
    let mut rest = bytes;
    for _ in 0..bytes.len() {
        let run = plain_len(rest);
        out.extend_from_slice(front(rest, run))?;
        let left = behind(rest, run);
        match item(left) {
            Some((byte, len)) => {
                out.push(byte)?;
                rest = behind(left, len);
            }
            None => return Ok(()),
        }
    }
    Ok(())
}

#[tactic(auto, unfolding(crate::specs::Scan::string_bytes))]
fn unquoted(alloc: Global, text: &[u8]) -> Result<Vec<u8>, AllocError>
    ensures { IfOk result (λ v. v.items ≡ string_bytes text.now) }
{
    let mut out = Vec::with_capacity(alloc, text.len())?;
    if let Some((_, body)) = text.split_first() {
        push_items(body, &mut out)?;
    }
    Ok(out)
}

/// The bytes that a string stands for, of its text with the quotes. Where the text is no string they
/// are those of the items behind its first byte.
pub fn string_bytes(alloc: Global, text: &[u8]) -> Result<Vec<u8>, AllocError>
    ensures value { IfOk result (λ v. v.items ≡ string_bytes text.now) }
    ensures meaning { IfOk result (λ v. (bytes : List ℕ) → IsString text.now bytes → v.items ≡ bytes) }
{
    unquoted(alloc, text)
}
