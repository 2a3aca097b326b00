//! The lines of what is found of texts.
ghost use Rattle.std.specs.Prelude.{◌≡◌, map, IfOk, string_bytes};
ghost use Rattle.commands.specs.Verdicts.{code_of, error_line, path_of, verdict_lines, warning_line};

use crate::verdict::{Finding, Verdict};
use diagnostics::note::Note;
use qbec::CompileError;
use std::alloc::{AllocError, Global};

/// The code of a refusal.
fn code_of(alloc: Global, refusal: &CompileError) -> Result<String, AllocError>
    ensures { IfOk result (λ s. string_bytes s ≡ code_of refusal.now) }
{
    match refusal {
        CompileError::Syntax { .. } => String::from_str(alloc, "E1"),
        CompileError::Rule { text: _, fault } => {
            let rule = fault.rule.number();
            format!(in alloc; "E2 C{rule}")
        }
        CompileError::UnknownName(_) => String::from_str(alloc, "E3"),
        CompileError::ExportedTwice(_) => String::from_str(alloc, "E4"),
        CompileError::NoMain => String::from_str(alloc, "E5"),
        CompileError::Limit => String::from_str(alloc, "E6"),
        CompileError::Memory => String::from_str(alloc, "E7"),
    }
}

/// The path of a text.
pub(crate) fn path_of<'a>(paths: &[&'a str], text: usize) -> &'a str
    ensures { result.now ≡ path_of (map (λ p. p.now) paths.now) text }
{
    match paths.get(text) {
        Some(path) => *path,
        None => "?",
    }
}

#[tactic(auto, unfolding(crate::specs::Verdicts::error_line))]
fn error_line(alloc: Global, paths: &[&str], finding: &Finding) -> Result<String, AllocError>
    ensures { IfOk result (λ s. string_bytes s ≡ error_line (map (λ p. p.now) paths.now) finding.now) }
{
    let path = path_of(paths, finding.note.text);
    let line = finding.note.line;
    let words = finding.note.words.as_str();
    let code = code_of(alloc, &finding.refusal)?;
    let before = finding.others.before.as_str();
    let behind = finding.others.behind.as_str();
    format!(in alloc; "{before}{path}:{line}: error: {words} [{code}]\n{behind}")
}

#[tactic(auto, unfolding(crate::specs::Verdicts::warning_line))]
fn warning_line(alloc: Global, paths: &[&str], note: &Note) -> Result<String, AllocError>
    ensures { IfOk result (λ s. string_bytes s ≡ warning_line (map (λ p. p.now) paths.now) note.now) }
{
    let path = path_of(paths, note.text);
    let line = note.line;
    let words = note.words.as_str();
    format!(in alloc; "{path}:{line}: warning: {words}\n")
}

fn error_lines(
    alloc: Global,
    paths: &[&str],
    findings: &[Finding],
) -> Result<Vec<String>, AllocError>
    ensures { IfOk result (λ v. map string_bytes v.items ≡ map (error_line (map (λ p. p.now) paths.now)) findings.now) }
{
    let mut lines = Vec::new(alloc);
    for finding in findings {
        lines.push(error_line(alloc, paths, finding)?)?;
    }
    Ok(lines)
}

fn warning_lines(alloc: Global, paths: &[&str], notes: &[Note]) -> Result<Vec<String>, AllocError>
    ensures { IfOk result (λ v. map string_bytes v.items ≡ map (warning_line (map (λ p. p.now) paths.now)) notes.now) }
{
    let mut lines = Vec::new(alloc);
    for note in notes {
        lines.push(warning_line(alloc, paths, note)?)?;
    }
    Ok(lines)
}

/// The lines of a verdict, each with its line end. The paths are those of the texts, in order.
///
/// # Errors
///
/// Only where memory was refused.
pub fn verdict_lines(
    alloc: Global,
    paths: &[&str],
    verdict: &Verdict,
) -> Result<Vec<String>, AllocError>
    ensures { IfOk result (λ v. map string_bytes v.items ≡ verdict_lines (map (λ p. p.now) paths.now) verdict.now) }
{
    match verdict {
        Verdict::Sound(warnings) => warning_lines(alloc, paths, warnings.as_slice()),
        Verdict::Refused(findings) => error_lines(alloc, paths, findings.as_slice()),
    }
}
