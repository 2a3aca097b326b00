//! What is wrong with texts, and where.
ghost use Rattle.std.specs.Prelude.{◌≡◌, ◌≢◌, ◌+◌, ◌++◌, ◌∷◌, [], ℕ, List, map, IfOk, OnOk};
ghost use Rattle.obj_link.specs.Prelude.{Refuses as RefusesLinking};
ghost use Rattle.qbec.specs.declared.error.CompileError.TheVariants.{Memory};
ghost use Rattle.qbec.specs.Refusals.{Refuses, AreTexts, RefusesText};
ghost use Rattle.commands.specs.Verdicts.{AreTrue, IsFinding, IsTrue, IsVerdict, StandsAt, verdict_status};

use crate::other_lines::{OtherLines, other_lines};
use crate::verdict_lines::path_of;
use diagnostics::linking::link;
use diagnostics::note::Note;
use diagnostics::text::{limit, rule, syntax};
use diagnostics::warning::warnings;
use il_types::Checked;
use obj_link::LinkError;
use obj_link::linking::resolve::resolve;
use qbec::CompileError;
use qbec::error::link_refusal;
use qbec::texts::checked_text;
use std::alloc::{AllocError, Global};

/// Why texts are refused: the refusal, the same in words at a line, and lines of what else is wrong with the text.
#[derive(Drop)]
pub struct Finding {
    pub refusal: CompileError,
    pub note: Note,
    pub others: OtherLines,
}

/// What is found of texts.
#[derive(Drop)]
pub enum Verdict {
    /// They are a program; these are likely mistakes in it.
    Sound(Vec<Note>),
    /// They are none, for these reasons.
    Refused(Vec<Finding>),
}

impl Verdict {
    /// The exit status that tells it.
    pub fn status(&self) -> u8
        ensures { result ≡ verdict_status self.now }
    {
        match self {
            Verdict::Sound(_) => 0,
            Verdict::Refused(_) => 126,
        }
    }
}

/// Why the text with this number is refused, in words.
fn text_note(
    alloc: Global,
    number: usize,
    bytes: &[u8],
    refusal: &CompileError,
) -> Result<Note, AllocError>
    requires { RefusesText refusal.now (number + 1) bytes.now }
    ensures text { IfOk result (λ note. note.text ≡ number) }
    ensures line { IfOk result (StandsAt refusal.now) }
{
    match refusal {
        CompileError::Syntax { text: _, line } => Ok(Note {
            text: number,
            line: *line,
            words: syntax(alloc, bytes)?,
        }),
        CompileError::Rule { text: _, fault } => Ok(Note {
            text: number,
            line: fault.line,
            words: rule(alloc, bytes, *fault)?,
        }),
        _ => limit(alloc, number, bytes),
    }
}

/// Adds why the text with this number, of this path, is refused, where that isn't for want of memory.
fn push_refused_text(
    alloc: Global,
    findings: &mut Vec<Finding>,
    path: &str,
    number: usize,
    bytes: &[u8],
    refusal: CompileError,
) -> Result<(), AllocError>
    requires { RefusesText refusal (number + 1) bytes.now }
    ensures { OnOk result ((f : Finding) × IsFinding number refusal f × (findings.new.items ≡ findings.old.items ++ f ∷ [])) }
{
    match refusal {
        CompileError::Memory => Err(AllocError),
        refusal => {
            let note = text_note(alloc, number, bytes, &refusal)?;
            let others = other_lines(alloc, path, number, bytes, &refusal)?;
            findings.push(Finding {
                refusal,
                note,
                others,
            })?;
            Ok(())
        }
    }
}

fn push_text(checked: &mut Vec<Checked>, text: Checked) -> Result<(), AllocError>
    ensures { OnOk result (checked.new.items ≡ checked.old.items ++ text ∷ []) }
{
    checked.push(text)?;
    Ok(())
}

/// The one reason why texts that keep the rules are no program.
fn refused_linking(
    alloc: Global,
    paths: &[&str],
    checked: &[Checked],
    error: LinkError<'_>,
) -> Result<Verdict, AllocError>
    requires { RefusesLinking error checked.now }
    ensures { (texts : List (List ℕ)) → AreTexts texts checked.now → IfOk result (IsVerdict texts) }
{
    let note = link(alloc, paths, checked, error)?;
    let refusal = link_refusal(alloc, error);
    match refusal {
        CompileError::Memory => Err(AllocError),
        refusal => {
            let mut findings = Vec::new(alloc);
            findings.push(Finding {
                refusal,
                note,
                others: OtherLines::none(alloc),
            })?;
            Ok(Verdict::Refused(findings))
        }
    }
}

/// What is found of texts that keep the rules.
fn linked_verdict(alloc: Global, paths: &[&str], checked: &[Checked]) -> Result<Verdict, AllocError>
    ensures { (texts : List (List ℕ)) → AreTexts texts checked.now → IfOk result (IsVerdict texts) }
{
    match resolve(alloc, checked) {
        Ok(linked) => Ok(Verdict::Sound(warnings(alloc, &linked)?)),
        Err(error) => refused_linking(alloc, paths, checked, error),
    }
}

/// What is found of texts: why each that is refused is, or else why they are no program together, or else what is likely a mistake in the program that they are. The
/// paths are those of the texts, in order; words name them.
///
/// # Errors
///
/// Only where memory was refused.
pub fn judge(alloc: Global, paths: &[&str], texts: &[&[u8]]) -> Result<Verdict, AllocError>
    ensures { IfOk result (IsVerdict (map (λ t. t.now) texts.now)) }
{
    let mut checked = Vec::new(alloc);
    let mut findings = Vec::new(alloc);
    for k in 0..texts.len() {
        match checked_text(alloc, k + 1, texts[k]) {
            Ok(text) => push_text(&mut checked, text)?,
            Err(refusal) => {
                let path = path_of(paths, k);
                push_refused_text(alloc, &mut findings, path, k, texts[k], refusal)?
            }
        }
    }
    if findings.is_empty() {
        linked_verdict(alloc, paths, checked.as_slice())
    } else {
        Ok(Verdict::Refused(findings))
    }
}
