//! Why words ask for no command.
use clap::Error;
use clap::error::ErrorKind;
use std::alloc::AllocError;
use std::fmt;

/// Why words ask for no command. Shown, it is the text for the user, with its line ends.
#[derive(Debug, Drop, thiserror::Error)]
pub enum Refusal {
    /// Help, or the version, was asked for.
    #[error("{0}")]
    Help(Text),
    /// The words are not of the command line's grammar.
    #[error("{0}")]
    Mistake(Text),
    /// Memory was refused.
    #[error("out of memory")]
    Memory,
}

/// A text of the command line's parser.
#[derive(Debug, Drop)]
pub struct Text {
    error: Error,
}

impl fmt::Display for Text {
    fn fmt<W: fmt::Write>(&self, f: &mut fmt::Formatter<W>) -> fmt::Result {
        let error = &self.error;
        write!(f, "{error}")
    }
}

impl From<Error> for Refusal {
    ghost use Rattle.std.specs.Prelude.{◌≡◌};
    ghost use Rattle.command_line.specs.Refused.{refusal_of};

    ghost from_gives = { λ e r. r ≡ refusal_of e };

    fn from(error: Error) -> Refusal {
        match error.kind() {
            ErrorKind::OutOfMemory => Refusal::Memory,
            ErrorKind::DisplayHelp | ErrorKind::DisplayVersion => Refusal::Help(Text { error }),
            _ => Refusal::Mistake(Text { error }),
        }
    }
}

impl From<AllocError> for Refusal {
    ghost use Rattle.std.specs.Prelude.{◌≡◌};
    ghost use Rattle.command_line.specs.declared.refusal.Refusal.TheVariants.{Memory};

    ghost from_gives = { λ _ r. r ≡ Memory };

    fn from(_refused: AllocError) -> Refusal {
        Refusal::Memory
    }
}
