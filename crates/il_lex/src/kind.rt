//! The kinds of tokens.

/// A token of one byte that may stand directly beside any other.
#[derive(Clone, Copy, PartialEq, Eq, Debug)]
pub enum Symbol {
    /// `,`
    Comma,
    /// `=`
    Equals,
    /// `{`
    LeftBrace,
    /// `}`
    RightBrace,
    /// `(`
    LeftParen,
    /// `)`
    RightParen,
    /// `+`
    Plus,
}

/// What a token is.
#[derive(Clone, Copy, Debug)]
pub enum Kind {
    Symbol(Symbol),
    /// The end of a line, byte 10.
    Newline,
    /// A keyword, a type or an operation: a letter, `_` or `.`, then letters, `_`, `.`, digits, `$`.
    Word,
    /// `$` and a word of at most 255 bytes.
    Global,
    /// `%` and a word of at most 255 bytes.
    Temp,
    /// `@` and a word of at most 255 bytes.
    Label,
    /// Digits, with their value.
    Natural(u64),
    /// A minus sign and digits, a number of at least -2^63, with its value modulo 2^64.
    Negative(u64),
    /// A string in quotes.
    Quoted,
}
