//! Why a command did not end well.
ghost use Rattle.std.specs.Prelude.{◌≡◌};
ghost use Rattle.commands.specs.Pieces.{fault_number, status_of, stop_status, end_status};

use crate::refusal::Refusal;
use elf_file::LoadError;
use il_ast::End;
use il_interp::error::RunError;
use qbec::CompileError;
use rv_isa::Fault;
use rv_machine::{StartError, Stop};
use std::alloc::{AllocError, AllocFailed};

/// Why a command did not end well. [`crate::tell::tell`] writes its line.
#[derive(Drop)]
pub enum Failure<'a> {
    /// The program came to `hlt`, or to `ebreak`.
    Halt,
    /// The limit of turns or of instructions was reached.
    Limit,
    /// The machine refused the instruction at `pc`.
    Fault { number: u8, pc: u64 },
    /// The program did what has no meaning.
    Undefined,
    /// A call found too little room on the stack.
    Stack,
    /// Memory was refused.
    Memory,
    /// Texts, a file or argument words were refused.
    Refused(Refusal),
    /// This file could not be read.
    Unread(&'a str),
    /// This file could not be written.
    Unwritten(&'a str),
    /// Standard output failed.
    Output,
}

impl Failure<'_> {
    /// The exit status of a command that failed so.
    pub fn status(&self) -> u8
        ensures { result ≡ status_of self.now }
    {
        match self {
            Failure::Halt => 134,
            Failure::Limit => 124,
            Failure::Fault { .. } | Failure::Undefined | Failure::Stack => 125,
            _ => 126,
        }
    }
}

/// The number of a fault, from 1 to 5.
fn fault_number(fault: Fault) -> u8
    ensures { result ≡ fault_number fault }
{
    match fault {
        Fault::UnknownInstruction => 1,
        Fault::Fetch => 2,
        Fault::Load => 3,
        Fault::Store => 4,
        Fault::SystemCall => 5,
    }
}

/// How a run of the machine ended: its exit status, or a failure.
pub(crate) fn stop_status<'a>(stop: Stop) -> Result<u8, Failure<'a>>
    ensures { result ≡ stop_status stop }
{
    match stop {
        Stop::Exit(status) => Ok(status),
        Stop::Break => Err(Failure::Halt),
        Stop::Limit => Err(Failure::Limit),
        Stop::Memory => Err(Failure::Memory),
        Stop::Fault(fault, pc) => Err(Failure::Fault {
            number: fault_number(fault),
            pc,
        }),
    }
}

/// How a run of the interpreter ended: its exit status, or a failure.
pub(crate) fn end_status<'a>(end: End) -> Result<u8, Failure<'a>>
    ensures { result ≡ end_status end }
{
    match end {
        End::Exit(status) => Ok(status),
        End::Halt => Err(Failure::Halt),
        End::Undefined => Err(Failure::Undefined),
        End::Stack => Err(Failure::Stack),
        End::Turns => Err(Failure::Limit),
    }
}

impl From<AllocError> for Failure<'_> {
    ghost use Rattle.std.specs.Prelude.{◌≡◌};
    ghost use Rattle.commands.specs.declared.failure.Failure.TheVariants.{Memory};

    ghost from_gives = { λ _ e. e ≡ Memory };

    fn from(_refused: AllocError) -> Self {
        Failure::Memory
    }
}

impl<T: Drop> From<AllocFailed<T>> for Failure<'_> {
    ghost use Rattle.std.specs.Prelude.{◌≡◌};
    ghost use Rattle.commands.specs.declared.failure.Failure.TheVariants.{Memory};

    ghost from_gives = { λ _ e. e ≡ Memory };

    fn from(_refused: AllocFailed<T>) -> Self {
        Failure::Memory
    }
}

impl From<Refusal> for Failure<'_> {
    ghost use Rattle.std.specs.Prelude.{◌≡◌};
    ghost use Rattle.commands.specs.declared.failure.Failure.TheVariants.{Refused};

    ghost from_gives = { λ r e. e ≡ Refused r };

    fn from(refusal: Refusal) -> Self {
        Failure::Refused(refusal)
    }
}

impl From<LoadError> for Failure<'_> {
    ghost use Rattle.std.specs.Prelude.{◌≡◌};
    ghost use Rattle.commands.specs.declared.failure.Failure.TheVariants.{Refused};
    ghost use Rattle.commands.specs.declared.refusal.Refusal.TheVariants.{File};

    ghost from_gives = { λ l e. e ≡ Refused (File l) };

    fn from(error: LoadError) -> Self {
        Failure::Refused(Refusal::File(error))
    }
}

impl From<StartError> for Failure<'_> {
    ghost use Rattle.std.specs.Prelude.{◌≡◌};
    ghost use Rattle.commands.specs.Refusals.{start_failure};

    ghost from_gives = { λ s e. e ≡ start_failure s };

    fn from(error: StartError) -> Self {
        match error {
            StartError::Arguments => Failure::Refused(Refusal::Words),
            StartError::Memory => Failure::Memory,
        }
    }
}

impl From<RunError> for Failure<'_> {
    ghost use Rattle.std.specs.Prelude.{◌≡◌};
    ghost use Rattle.commands.specs.declared.failure.Failure.TheVariants.{Refused};
    ghost use Rattle.commands.specs.Refusals.{run_refusal};

    ghost from_gives = { λ r e. e ≡ Refused (run_refusal r) };

    fn from(error: RunError) -> Self {
        match error {
            RunError::Words => Failure::Refused(Refusal::Words),
            RunError::Memory => Failure::Refused(Refusal::Memory),
        }
    }
}

impl From<CompileError> for Failure<'_> {
    ghost use Rattle.std.specs.Prelude.{◌≡◌};
    ghost use Rattle.commands.specs.declared.failure.Failure.TheVariants.{Refused};
    ghost use Rattle.commands.specs.Refusals.{compile_refusal};

    ghost from_gives = { λ c e. e ≡ Refused (compile_refusal c) };

    fn from(error: CompileError) -> Self {
        Failure::Refused(Refusal::from(error))
    }
}
