//! Why a program was not run.
use std::alloc::AllocError;
use thiserror::Error;

/// Why a program was not run. It is shown as the refusal's number.
#[derive(Clone, Copy, Debug, Error)]
pub enum RunError {
    /// The argument words pass a limit, or hold a zero byte.
    #[error("E8")]
    Words,
    /// Memory was refused.
    #[error("E7")]
    Memory,
}

impl From<AllocError> for RunError {
    ghost use Rattle.std.specs.Prelude.{◌≡◌};
    ghost use Rattle.il_interp.specs.declared.error.RunError.TheVariants.{Memory};

    ghost from_gives = { λ _ e. e ≡ Memory };

    fn from(_refused: AllocError) -> RunError {
        RunError::Memory
    }
}
