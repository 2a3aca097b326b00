//! Texts, read and checked.
ghost use Rattle.std.specs.Prelude.{◌≡◌, ◌++◌, ◌∷◌, [], IfOk, IfErr, OnOk, List, map, MatchResult};
ghost use Rattle.il_reader.specs.Prelude.{Reads};
ghost use Rattle.il_types.specs.declared.checked.Checked.{Checked as CheckedText};
ghost use Rattle.qbec.specs.declared.error.CompileError.TheVariants.{Memory};
ghost use Rattle.qbec.specs.Refusals.{AreTexts, Refuses, RefusesText, read_refusal, check_refusal};

use crate::error::CompileError;
use il_reader::error::ReadError;
use il_reader::read::read;
use il_types::check::check;
use il_types::{CheckError, Checked};
use std::alloc::{AllocError, Global};

fn read_refusal(number: usize, error: ReadError) -> CompileError
    ensures { result ≡ read_refusal number error }
{
    match error {
        ReadError::Syntax { line } => CompileError::Syntax { text: number, line },
        ReadError::Memory => CompileError::Memory,
    }
}

fn check_refusal(number: usize, error: CheckError) -> CompileError
    ensures { result ≡ check_refusal number error }
{
    match error {
        CheckError::Rule(fault) => CompileError::Rule {
            text: number,
            fault,
        },
        CheckError::Limit => CompileError::Limit,
        CheckError::Memory => CompileError::Memory,
    }
}

/// Reads and checks the text with this number.
///
/// # Errors
///
/// `CompileError::Syntax`, `CompileError::Rule` or `CompileError::Limit` says why the text is refused. `CompileError::Memory` is answered only where memory was
/// refused.
pub fn checked_text(alloc: Global, number: usize, bytes: &[u8]) -> Result<Checked, CompileError>
    ensures found { IfOk result (λ c. Reads bytes.now c.text) }
    ensures only { (c : CheckedText) → Reads bytes.now c.text → MatchResult result (λ d. d.text ≡ c.text) (λ e. e ≡ Memory) }
    ensures says { IfErr result (λ e. RefusesText e number bytes.now) }
{
    match read(alloc, bytes) {
        Ok(tree) => match check(alloc, tree) {
            Ok(checked) => Ok(checked),
            Err(error) => Err(check_refusal(number, error)),
        },
        Err(error) => Err(read_refusal(number, error)),
    }
}

fn push_text(checked: &mut Vec<Checked>, text: Checked) -> Result<(), AllocError>
    ensures { OnOk result (checked.new.items ≡ checked.old.items ++ text ∷ []) }
{
    checked.push(text)?;
    Ok(())
}

/// Reads and checks texts.
///
/// # Errors
///
/// `CompileError::Syntax` and `CompileError::Rule` name a text that is not in the grammar, or that breaks a rule, with a line; `CompileError::Limit` says that
/// a text passes a limit of one text. `CompileError::Memory` is answered only where memory was refused.
pub fn checked_texts(alloc: Global, texts: &[&[u8]]) -> Result<Vec<Checked>, CompileError>
    ensures found { IfOk result (λ v. AreTexts (map (λ t. t.now) texts.now) v.items) }
    ensures only { (all : List CheckedText) → AreTexts (map (λ t. t.now) texts.now) all → MatchResult result (λ v. v.items ≡ all) (λ e. e ≡ Memory) }
    ensures says { IfErr result (λ e. Refuses e (map (λ t. t.now) texts.now)) }
{
    let mut checked = Vec::new(alloc);
    for k in 0..texts.len() {
        match checked_text(alloc, k + 1, texts[k]) {
            Ok(text) => push_text(&mut checked, text)?,
            Err(error) => return Err(error),
        }
    }
    Ok(checked)
}
