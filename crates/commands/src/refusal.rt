//! Why texts, a file or argument words are refused.
ghost use Rattle.std.specs.Prelude.{◌≡◌};
ghost use Rattle.il_types.specs.Prelude.{rule_number};
ghost use Rattle.commands.specs.declared.refusal.Refusal.TheVariants.{Rule};

use elf_file::LoadError;
use il_types::BrokenRule;
use qbec::CompileError;

/// Why texts, a file or argument words are refused.
#[derive(Drop)]
pub enum Refusal {
    /// A text is not in the grammar. Texts and lines are numbered from 1.
    Syntax { text: usize, line: usize },
    /// A text breaks a rule, at a line.
    Rule { rule: u8, text: usize, line: usize },
    /// A name means nothing. It stands without its `$`.
    UnknownName(Vec<u8>),
    /// A name is exported twice.
    ExportedTwice(Vec<u8>),
    /// No `main` is exported.
    NoMain,
    /// A limit of the texts is passed.
    Limit,
    /// Memory for the texts was refused.
    Memory,
    /// The argument words pass a limit.
    Words,
    /// The executable file is none.
    File(LoadError),
}

fn broken_rule(text: usize, fault: BrokenRule) -> Refusal
    ensures { result ≡ Rule (rule_number fault.rule) text fault.line }
{
    Refusal::Rule {
        rule: fault.rule.number(),
        text,
        line: fault.line,
    }
}

impl From<CompileError> for Refusal {
    ghost use Rattle.std.specs.Prelude.{◌≡◌};
    ghost use Rattle.commands.specs.Refusals.{compile_refusal};

    ghost from_gives = { λ c e. e ≡ compile_refusal c };

    fn from(error: CompileError) -> Refusal {
        match error {
            CompileError::Syntax { text, line } => Refusal::Syntax { text, line },
            CompileError::Rule { text, fault } => broken_rule(text, fault),
            CompileError::UnknownName(name) => Refusal::UnknownName(name),
            CompileError::ExportedTwice(name) => Refusal::ExportedTwice(name),
            CompileError::NoMain => Refusal::NoMain,
            CompileError::Limit => Refusal::Limit,
            CompileError::Memory => Refusal::Memory,
        }
    }
}
