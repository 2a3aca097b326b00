//! The argument words of a program, as bytes.

ghost use Rattle.std.specs.Prelude.{◌≡◌, ◌+◌, ◌<◌, ◌≤◌, ◌^◌, ◌++◌, length, OnOk, IfOk};
ghost use Rattle.rv_isa.specs.Prelude.{argument_bytes, pointer_bytes, word_bytes};
ghost use Rattle.obj_link.specs.Prelude.{WORDS, WORD_BYTES};
ghost use Rattle.rv_machine.specs.Words.{texts};

use rv_isa::abi;
use std::alloc::{AllocError, Global};

/// The bytes of the argument range, from the stack pointer upward. Fails only for want of memory.
#[tactic(auto, unfolding(rv_isa::specs::Start::argument_bytes))]
pub(crate) fn argument_bytes(alloc: Global, words: &[&[u8]]) -> Result<Vec<u8>, AllocError>
    requires count { length words.now ≤ WORDS }
    requires size { length (word_bytes (texts words.now)) ≤ WORD_BYTES }
    ensures { IfOk result (λ v. v.items ≡ argument_bytes (texts words.now)) }
{
    let count = words.len() as u64;
    let mut bytes = Vec::new(alloc);
    bytes.extend_from_slice(&count.to_le_bytes())?;
    push_pointers(words, abi::STACK_TOP + 40 + 8 * count, &mut bytes)?;
    bytes.extend_from_slice(&[0; 32])?;
    push_words(words, &mut bytes)?;
    Ok(bytes)
}

/// Appends a pointer to each word, of which the first stands at `at`.
fn push_pointers(words: &[&[u8]], at: u64, bytes: &mut Vec<u8>) -> Result<(), AllocError>
    requires { at + length (word_bytes (texts words.now)) < 2 ^ 64 }
    ensures { OnOk result (bytes.new.items ≡ bytes.old.items ++ pointer_bytes at (texts words.now)) }
{
    match words {
        [] => Ok(()),
        [word, rest @ ..] => {
            bytes.extend_from_slice(&at.to_le_bytes())?;
            push_pointers(rest, at + word.len() as u64 + 1, bytes)
        }
    }
}

/// Appends each word with its closing zero.
fn push_words(words: &[&[u8]], bytes: &mut Vec<u8>) -> Result<(), AllocError>
    ensures { OnOk result (bytes.new.items ≡ bytes.old.items ++ word_bytes (texts words.now)) }
{
    match words {
        [] => Ok(()),
        [word, rest @ ..] => {
            bytes.extend_from_slice(word)?;
            bytes.push(0)?;
            push_words(rest, bytes)
        }
    }
}
