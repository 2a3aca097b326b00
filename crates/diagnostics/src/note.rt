//! Words at a line, and what is gathered of a text.
ghost use Rattle.std.specs.Prelude.{◌≡◌, IfOk};

use std::alloc::{AllocError, Global};
use text_maker::TextMaker;

/// What is said of a line of one of several texts, which are numbered from 0.
#[derive(Drop)]
pub struct Note {
    pub text: usize,
    pub line: usize,
    pub words: String,
}

/// The note of these words, at a line of a text.
pub(crate) fn make_note(text: usize, line: usize, words: TextMaker) -> Result<Note, AllocError>
    ensures text { IfOk result (λ note. note.text ≡ text) }
    ensures line { IfOk result (λ note. note.line ≡ line) }
{
    Ok(Note {
        text,
        line,
        words: words.finish()?,
    })
}

/// Items in order. Once memory is refused there will be none, and whoever gathers them is told at the end.
#[derive(Drop)]
pub(crate) struct Gathered<T> {
    pub alloc: Global,
    list: Vec<T>,
    is_refused: bool,
}

impl<T: Drop> Gathered<T> {
    /// No item yet.
    pub fn new(alloc: Global) -> Gathered<T> {
        Gathered {
            alloc,
            list: Vec::new(alloc),
            is_refused: false,
        }
    }

    /// Adds an item, where memory was given for it.
    pub fn add(&mut self, made: Result<T, AllocError>) {
        let is_added = match made {
            Ok(item) => self.list.push(item).is_ok(),
            Err(AllocError) => false,
        };
        self.is_refused = self.is_refused || !is_added;
    }

    pub fn last(&self) -> Option<&T> {
        self.list.as_slice().last()
    }

    /// The items, where memory was given for all of them.
    pub fn finish(self) -> Result<Vec<T>, AllocError> {
        if self.is_refused {
            return Err(AllocError);
        }
        Ok(self.list)
    }
}
