//! Places and operands as words.
use crate::code_text::rules::place::CodePlace;
use crate::code_text::words::number_behind;
use std::fmt;
use vcode::Location;

/// A place, or another operand, as a word.
#[derive(Clone, Copy)]
pub enum Word {
    Virtual(u32),
    Register(u8),
    Slot(u32),
    /// an integer modulo 2^64, written as the one from -2^63 up to 2^63
    Number(u64),
    Name(usize),
}

impl fmt::Display for Word {
    fn fmt<W: fmt::Write>(&self, f: &mut fmt::Formatter<W>) -> fmt::Result {
        match *self {
            Word::Virtual(number) => write!(f, "%{number}"),
            Word::Register(number) => write!(f, "x{number}"),
            Word::Slot(slot) => write!(f, "[{slot}]"),
            Word::Number(number) => write!(f, "{}", number.cast_signed()),
            Word::Name(global) => write!(f, "${global}"),
        }
    }
}

/// The places of a code, as words.
pub trait Place: CodePlace {
    /// What a function has so many of.
    const COUNTED: &'static str;

    /// The place that a word names.
    fn read(word: &str) -> Option<Self>;

    fn word(self) -> Word;
}

impl Place for u32 {
    const COUNTED: &'static str = "registers";

    fn read(word: &str) -> Option<u32> {
        number_behind("%", word)
    }

    fn word(self) -> Word {
        Word::Virtual(self)
    }
}

impl Place for Location {
    const COUNTED: &'static str = "slots";

    fn read(word: &str) -> Option<Location> {
        match word.strip_suffix(']') {
            Some(slot) => Some(Location::Slot(number_behind("[", slot)?)),
            None => {
                let number = number_behind("x", word)?;
                Some(Location::Register(u8::try_from(number).ok()?))
            }
        }
    }

    fn word(self) -> Word {
        match self {
            Location::Register(number) => Word::Register(number),
            Location::Slot(slot) => Word::Slot(slot),
        }
    }
}
