//! Texts that are made piece by piece.
use std::alloc::{AllocError, Global};
use std::fmt::Display;

/// Adds a text with values in it: `say!(text; "{number} bytes")`.
#[macro_export]
macro_rules! say {
    ($to:expr; $($text:tt)*) => {
        $to.write_fmt(format_args!($($text)*))
    };
}

/// A text that is made piece by piece. Once memory is refused it takes nothing more, and its maker is told at the end.
#[derive(Drop)]
pub struct TextMaker {
    text: String,
    is_refused: bool,
}

impl TextMaker {
    /// The empty text.
    pub fn new(alloc: Global) -> TextMaker {
        TextMaker {
            text: String::new(alloc),
            is_refused: false,
        }
    }

    /// How many bytes it has.
    pub fn len(&self) -> usize {
        self.text.len()
    }

    /// Adds a piece.
    pub fn add(&mut self, piece: &str) {
        if !self.is_refused {
            self.is_refused = self.text.push_str(piece).is_err();
        }
    }

    /// Adds a text with values in it, as [`say`](crate::say) makes it.
    pub fn write_fmt<D: Display + Drop>(&mut self, text: D) {
        if !self.is_refused {
            self.is_refused = self.text.write_fmt(text).is_err();
        }
    }

    /// Adds a piece so many times.
    pub fn repeat(&mut self, piece: &str, count: u64) {
        for _ in 0..count {
            self.add(piece);
        }
    }

    /// The whole text, where memory was given for all of it.
    pub fn finish(self) -> Result<String, AllocError> {
        if self.is_refused {
            return Err(AllocError);
        }
        Ok(self.text)
    }
}
