//! The check of a text.
ghost use Rattle.std.specs.Prelude.{◌≡◌, IfOk, IfErr, MatchResult};
ghost use Rattle.il_types.specs.declared.error.CheckError.TheVariants.{Memory};
ghost use Rattle.il_types.specs.Prelude.{first_fault, fault_or, text_fault, IsGood, Refuses};

use crate::checked::Checked;
use crate::error::CheckError;
use crate::faults::{at, definition_fault, or};
use crate::globals::repeated_global;
use crate::limits::within_limits;
use crate::rule::{BrokenRule, Rule};
use il_ast::{Definition, Text};
use std::alloc::{AllocError, Global};

/// Takes a text that breaks no rule and passes no limit of one text.
///
/// `CheckError::Rule` names a rule that is broken and the line of the first place that breaks it,
/// `CheckError::Limit` says that a limit is passed, `CheckError::Memory` that memory was refused. A
/// text that is refused is dropped.
pub fn check(alloc: Global, text: Text) -> Result<Checked, CheckError>
    ensures truth { MatchResult result (λ checked. checked.text ≡ text) (λ error. Refuses error text) }
    ensures good { IsGood text → IfErr result (λ error. error ≡ Memory) }
{
    if !within_limits(&text) {
        return Err(CheckError::Limit);
    }
    match text_fault(alloc, &text)? {
        Some(fault) => Err(CheckError::Rule(fault)),
        None => Ok(Checked { text }),
    }
}

/// A fault of a text.
#[tactic(auto, unfolding(crate::specs::Faults::text_fault))]
fn text_fault(alloc: Global, text: &Text) -> Result<Option<BrokenRule>, AllocError>
    ensures { IfOk result (λ fault. fault ≡ text_fault text.now) }
{
    let global = at(Rule::DistinctGlobals, repeated_global(alloc, text)?);
    let local = first_fault(alloc, text.definitions.as_slice())?;
    Ok(or(global, local))
}

fn first_fault(alloc: Global, definitions: &[Definition]) -> Result<Option<BrokenRule>, AllocError>
    ensures { IfOk result (λ fault. fault ≡ first_fault definitions.now) }
{
    for definition in definitions {
        match definition_fault(alloc, definition)? {
            Some(fault) => return Ok(Some(fault)),
            None => {}
        }
    }
    Ok(None)
}
