//! The words of a line.

/// The words of a line that are left. Words are separated by spaces and commas.
#[derive(Clone, Copy)]
pub struct Words<'a> {
    rest: &'a str,
}

impl<'a> Words<'a> {
    /// All words of a line.
    pub fn of(line: &'a str) -> Words<'a> {
        Words { rest: line }
    }

    /// The next word, or the empty text if none is left.
    pub fn next(&mut self) -> &'a str {
        let rest = self.rest.trim_start();
        let (word, after) = rest.split_once(' ').unwrap_or((rest, ""));
        self.rest = after;
        word.trim_end_matches(',')
    }
}

/// The number in the digits behind a sigil.
pub fn number_behind(sigil: &str, word: &str) -> Option<u32> {
    word.strip_prefix(sigil)?.parse::<u32>().ok()
}

/// An integer modulo 2^64, by its digits and a sign.
pub fn signed(word: &str) -> Option<u64> {
    match word.strip_prefix('-') {
        Some(digits) => Some(0u64.wrapping_sub(digits.parse::<u64>().ok()?)),
        None => word.parse::<u64>().ok(),
    }
}
