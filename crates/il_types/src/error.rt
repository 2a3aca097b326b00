//! Why a text was refused.
use crate::rule::BrokenRule;
use std::alloc::AllocError;
use thiserror::Error;

/// Why a text was refused. It is shown as the refusal's number.
#[derive(Clone, Copy, Debug, Error)]
pub enum CheckError {
    /// A rule is broken, at a line.
    #[error("E2")]
    Rule(BrokenRule),
    /// A limit of one text is passed.
    #[error("E6")]
    Limit,
    /// Memory was refused.
    #[error("E7")]
    Memory,
}

impl From<AllocError> for CheckError {
    ghost use Rattle.std.specs.Prelude.{◌≡◌};
    ghost use Rattle.il_types.specs.declared.error.CheckError.TheVariants.{Memory};

    ghost from_gives = { λ _ e. e ≡ Memory };

    fn from(_refused: AllocError) -> CheckError {
        CheckError::Memory
    }
}
