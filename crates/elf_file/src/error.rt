use std::alloc::{AllocError, AllocFailed};
use thiserror::Error;

/// Why a file was refused. It is shown as its number, `L1` to `L6`.
#[derive(Clone, Copy, Debug, Error)]
pub enum LoadError {
    /// The file is cut off: it has fewer than 64 bytes, or its program headers or the file bytes of a segment pass its end.
    #[error("L1")]
    CutOff,
    /// It is not an ELF64 executable for RISC-V, lowest byte first, with headers of the sizes of ELF64.
    #[error("L2")]
    OtherKind,
    /// A value of the file's header or of a program header is none that is taken.
    #[error("L3")]
    OutOfRange,
    /// The segments are not in rising order without overlap, or one lies outside the addresses of images.
    #[error("L4")]
    Misplaced,
    /// The entry is not a multiple of 4, or its four bytes are not in one segment that may be executed.
    #[error("L5")]
    BadEntry,
    /// Memory was refused.
    #[error("L6")]
    Memory,
}

impl From<AllocError> for LoadError {
    ghost use Rattle.std.specs.Prelude.{◌≡◌};
    ghost use Rattle.elf_file.specs.declared.error.LoadError.TheVariants.{Memory};

    ghost from_gives = { λ _ e. e ≡ Memory };

    fn from(_refused: AllocError) -> LoadError {
        LoadError::Memory
    }
}

impl<T: Drop> From<AllocFailed<T>> for LoadError {
    ghost use Rattle.std.specs.Prelude.{◌≡◌};
    ghost use Rattle.elf_file.specs.declared.error.LoadError.TheVariants.{Memory};

    ghost from_gives = { λ _ e. e ≡ Memory };

    fn from(_refused: AllocFailed<T>) -> LoadError {
        LoadError::Memory
    }
}
