//! Laws of tokens, each the contract of a function that does nothing.

ghost use Rattle.il_lex.specs.Next.{OneNext, EndIsEnd, OneReading};

/// At most one token stands next in a list of bytes, with one gap, one text and one rest.
pub fn one_token()
    ensures { OneNext }
{}

/// No token stands next where only spacing and perhaps a comment are left.
pub fn nothing_behind_the_end()
    ensures { EndIsEnd }
{}

/// A string stands for one list of bytes.
pub fn one_reading()
    ensures { OneReading }
{}
