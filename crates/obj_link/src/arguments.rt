//! The argument words of a program.
ghost use Rattle.std.specs.Prelude.{◌≡◌, length, map, nat_le};
ghost use Rattle.rv_isa.specs.Prelude.{word_bytes};
ghost use Rattle.obj_link.specs.Prelude.{are_arguments, hold_no_zero};

use il_ast::limits::{WORD_BYTES, WORDS};

/// Whether a program can be given these words: there are at most [`WORDS`], with at most [`WORD_BYTES`] bytes, the closing zero of each counted, and
/// none holds a zero.
pub fn are_arguments(words: &[&[u8]]) -> bool
    ensures { result ≡ are_arguments (map (λ w. w.now) words.now) }
{
    words.len() <= WORDS && total_fits(words, WORD_BYTES) && hold_no_zero(words)
}

/// Whether the words with their closing zeros have at most so many bytes.
fn total_fits(words: &[&[u8]], left: usize) -> bool
    ensures { result ≡ nat_le (length (word_bytes (map (λ w. w.now) words.now))) left }
{
    match words {
        [] => true,
        [word, rest @ ..] => {
            if word.len() >= left {
                false
            } else {
                total_fits(rest, left - word.len() - 1)
            }
        }
    }
}

/// Whether no word holds a zero.
fn hold_no_zero(words: &[&[u8]]) -> bool
    ensures { result ≡ hold_no_zero (map (λ w. w.now) words.now) }
{
    match words {
        [] => true,
        [word, rest @ ..] => !word.contains(&0) && hold_no_zero(rest),
    }
}
