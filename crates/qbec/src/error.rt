//! Why texts are not compiled.
ghost use Rattle.std.specs.Prelude.{◌≡◌, IfOk};
ghost use Rattle.qbec.specs.Refusals.{SaysAsMuch};

use il_types::BrokenRule;
use obj_link::LinkError;
use std::alloc::{AllocError, Global};

/// Why texts are refused: they are no program, or memory was refused. Texts are numbered from 1, in order.
#[derive(Drop, Debug)]
pub enum CompileError {
    /// The text is not in the grammar. The line is from 1 to 1 more than the text's bytes 10.
    Syntax { text: usize, line: usize },
    /// The text breaks a rule, at a line.
    Rule { text: usize, fault: BrokenRule },
    /// A text mentions this name, which means nothing in it.
    UnknownName(Vec<u8>),
    /// This name is exported more than once, or is that of a predefined function.
    ExportedTwice(Vec<u8>),
    /// No function is exported as `main` in one of the two forms.
    NoMain,
    /// A limit of one text, or one over all texts, is passed.
    Limit,
    /// Memory was refused.
    Memory,
}

impl From<AllocError> for CompileError {
    ghost use Rattle.std.specs.Prelude.{◌≡◌};
    ghost use Rattle.qbec.specs.declared.error.CompileError.TheVariants.{Memory};

    ghost from_gives = { λ _ e. e ≡ Memory };

    fn from(_refused: AllocError) -> CompileError {
        CompileError::Memory
    }
}

fn name_of(alloc: Global, name: &[u8]) -> Result<Vec<u8>, AllocError>
    ensures { IfOk result (λ v. v.items ≡ name.now) }
{
    let mut copy = Vec::new(alloc);
    copy.extend_from_slice(name)?;
    Ok(copy)
}

/// Why texts are refused that don't link. The name is copied; where memory for it is refused, that is why.
pub fn link_refusal(alloc: Global, error: LinkError<'_>) -> CompileError
    ensures { SaysAsMuch error.entry result }
{
    match error {
        LinkError::UnknownName(name) => match name_of(alloc, name) {
            Ok(name) => CompileError::UnknownName(name),
            Err(_) => CompileError::Memory,
        },
        LinkError::ExportedTwice(name) => match name_of(alloc, name) {
            Ok(name) => CompileError::ExportedTwice(name),
            Err(_) => CompileError::Memory,
        },
        LinkError::NoMain => CompileError::NoMain,
        LinkError::Limit => CompileError::Limit,
        LinkError::Memory => CompileError::Memory,
    }
}
