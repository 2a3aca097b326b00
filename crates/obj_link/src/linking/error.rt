//! Why texts are no program.
use std::alloc::AllocError;
use thiserror::Error;

/// Why texts are no program. It is shown as the refusal's number.
#[derive(Clone, Copy, Debug, Error)]
pub enum LinkError<'a> {
    /// A text mentions this name, which means nothing in it.
    #[error("E3")]
    UnknownName(&'a [u8]),
    /// This name is exported more than once, or is that of a predefined function.
    #[error("E4")]
    ExportedTwice(&'a [u8]),
    /// No function `main` of either form is exported.
    #[error("E5")]
    NoMain,
    /// A limit over all texts is passed.
    #[error("E6")]
    Limit,
    /// Memory was refused.
    #[error("E7")]
    Memory,
}

impl<'a> From<AllocError> for LinkError<'a> {
    ghost use Rattle.std.specs.Prelude.{◌≡◌};
    ghost use Rattle.obj_link.specs.declared.linking.error.LinkError.TheVariants.{Memory};

    ghost from_gives = { λ _ e. e ≡ Memory };

    fn from(_refused: AllocError) -> LinkError<'a> {
        LinkError::Memory
    }
}
