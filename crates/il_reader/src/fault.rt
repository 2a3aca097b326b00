//! Why a part of a text was not read.
ghost use Rattle.std.specs.Prelude.{◌≡◌};
ghost use Rattle.il_reader.specs.declared.fault.Unread.TheVariants.{Memory};

use std::alloc::AllocError;

/// Why a part of a text was not read.
#[derive(Clone, Copy)]
pub(crate) enum Unread {
    /// It is not what the grammar wants there.
    Syntax,
    /// Memory was refused.
    Memory,
}

impl From<AllocError> for Unread {
    ghost from_gives = { λ _ fault. fault ≡ Memory };

    fn from(_error: AllocError) -> Unread {
        Unread::Memory
    }
}
