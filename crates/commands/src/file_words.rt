//! What is wrong with an executable file, in words.
use elf_file::LoadError;

/// Why a file of these bytes is refused so, in words.
pub(crate) fn file_words(error: LoadError, bytes: &[u8]) -> &'static str {
    let is_executable = bytes.starts_with(b"\x7fELF");
    match error {
        LoadError::CutOff | LoadError::OtherKind if !is_executable => {
            if bytes.contains(&0) {
                "it is no executable file"
            } else {
                "it is no executable file; qbec build makes one of a text, and qbec interp interprets a text"
            }
        }
        LoadError::CutOff => "it ends before its headers or its segments do",
        LoadError::OtherKind => {
            "it is an executable of another kind: qbec runs static ones for 64-bit RISC-V, as qbec build writes them"
        }
        LoadError::OutOfRange => {
            "a value in its headers is none that qbec build writes: the size, the address, the flags or the alignment of a segment"
        }
        LoadError::Misplaced => {
            "its segments overlap, are out of order, or lie outside 0x10000 up to 0xf800000"
        }
        LoadError::BadEntry => {
            "its entry is no place of an instruction in a segment that can be executed"
        }
        LoadError::Memory => "memory was refused",
    }
}
