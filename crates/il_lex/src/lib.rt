//! The tokens of a text of the QBE intermediate language (its integer part).
//!
//! A text is a list of bytes. Outside strings and comments it holds tabs, line feeds and the bytes 32
//! to 126; a comment goes from `#` to the end of its line and holds any bytes but a carriage return,
//! which stands nowhere. The tokens are
//!
//! - the symbols `,` `=` `{` `}` `(` `)` `+`;
//! - the end of a line, with spacing or a comment before it;
//! - words, and the names of globals `$x`, temporaries `%x` and labels `@x`, of at most 255 bytes
//!   behind the sigil;
//! - numbers below 2^64 with any number of leading zeros, and negative ones from -2^63 on, which
//!   count modulo 2^64;
//! - strings in quotes, with the escapes `\\` `\"` `\n` `\t` `\r` `\b` `\f` and up to three octal digits.
//!
//! Neighbours are separated by spacing; where one of them is a symbol or the end of a line it may be
//! left out. So `%a%b`, `12ab` and `"a""b"` are no tokens.
//!
//! # What it promises
//!
//! `specs/Scan.antt` says what the next token of a list of bytes is, as a relation (`IsNext`), and
//! `scan` answers just that, both ways: a token where one stands next, the end where nothing but
//! spacing and a comment is left, an error nowhere else. The law that at most one token stands next
//! is in `laws`. `Tokens` goes along a text: each token is the slice of its span, nothing but spacing
//! and comments lies between two, its line is that of its first byte, and an error is answered again
//! by each later call. None of these takes memory. `string_bytes` gives the bytes that a string stands
//! for, and takes memory for them.
//!
//! All of it goes through the bytes once. It stands on `memchr`, which finds the ends of comments.
#![tactic(auto)]

mod bytes;
pub mod kind;
pub mod laws;
pub mod quoted;
pub mod scan;
pub mod tokens;
