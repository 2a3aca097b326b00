//! The first fault of a definition.
ghost use Rattle.std.specs.Prelude.{◌≡◌, IfOk};
ghost use Rattle.il_types.specs.Prelude.{fault_at, fault_or, label_fault, temp_fault, size_fault, function_fault, object_fault, definition_fault};

use crate::definers::definers;
use crate::insts::{long_blit, wrong_alloc};
use crate::labels::{block_without_jump, jump_to_entry, labels, repeated_local, unknown_label};
use crate::marks::given;
use crate::objects::{wrong_alignment, wrong_fields};
use crate::operands::operands;
use crate::phis::uncovered_phi;
use crate::rule::{BrokenRule, Rule};
use crate::sites::targets;
use crate::temps::{misplaced, two_types, undefined_temp, wrong_return};
use il_ast::{Class, DataDef, Definition, Func};
use std::alloc::{AllocError, Global};

/// The fault of the rule at the line, if there is one.
pub fn at(rule: Rule, line: Option<usize>) -> Option<BrokenRule>
    ensures { result ≡ fault_at rule line }
{
    match line {
        Some(line) => Some(BrokenRule { rule, line }),
        None => None,
    }
}

/// The first fault, or else the other.
pub fn or(fault: Option<BrokenRule>, other: Option<BrokenRule>) -> Option<BrokenRule>
    ensures { result ≡ fault_or fault other }
{
    match fault {
        Some(fault) => Some(fault),
        None => other,
    }
}

/// A fault of a definition: none is found where no rule is broken in it.
pub fn definition_fault(
    alloc: Global,
    definition: &Definition,
) -> Result<Option<BrokenRule>, AllocError>
    ensures { IfOk result (λ fault. fault ≡ definition_fault definition.now) }
{
    match definition {
        Definition::Function(function) => function_fault(alloc, function),
        Definition::Object(object) => Ok(object_fault(object)),
    }
}

fn object_fault(object: &DataDef) -> Option<BrokenRule>
    ensures { result ≡ object_fault object.now }
{
    let fields = at(Rule::DataFields, wrong_fields(object));
    let alignment = at(Rule::Alignment, wrong_alignment(object));
    or(fields, alignment)
}

fn function_fault(alloc: Global, function: &Func) -> Result<Option<BrokenRule>, AllocError>
    ensures { IfOk result (λ fault. fault ≡ function_fault function.now) }
{
    let labels = label_fault(alloc, function)?;
    let temps = temp_fault(alloc, function)?;
    let sizes = size_fault(alloc, function)?;
    Ok(or(labels, or(temps, sizes)))
}

#[tactic(auto, unfolding(crate::specs::Faults::label_fault))]
fn label_fault(alloc: Global, function: &Func) -> Result<Option<BrokenRule>, AllocError>
    ensures { IfOk result (λ fault. fault ≡ label_fault function.now) }
{
    let repeated = at(Rule::DistinctLocals, repeated_local(alloc, function)?);
    let known = labels(alloc, function.blocks.as_slice())?;
    let targets = targets(alloc, function)?;
    let unknown = at(
        Rule::KnownLabels,
        unknown_label(alloc, function, known.as_slice(), targets.as_slice())?,
    );
    let entry = at(
        Rule::EntryNotTarget,
        jump_to_entry(function, targets.as_slice()),
    );
    let end = at(Rule::LastBlockEnds, block_without_jump(function));
    Ok(or(repeated, or(unknown, or(entry, end))))
}

#[tactic(auto, unfolding(crate::specs::Faults::temp_fault))]
fn temp_fault(alloc: Global, function: &Func) -> Result<Option<BrokenRule>, AllocError>
    ensures { IfOk result (λ fault. fault ≡ temp_fault function.now) }
{
    let places = definers(alloc, function)?;
    let words = given(alloc, places.as_slice(), Class::W)?;
    let longs = given(alloc, places.as_slice(), Class::L)?;
    let found = operands(alloc, function)?;
    let (words, longs) = (words.as_slice(), longs.as_slice());
    let types = at(
        Rule::OneType,
        two_types(function, places.as_slice(), words, longs),
    );
    let operand = at(
        Rule::OperandFits,
        misplaced(function, found.as_slice(), words),
    );
    let returned = at(Rule::ReturnFits, wrong_return(function, words));
    let undefined = at(
        Rule::DefinedTemporaries,
        undefined_temp(function, found.as_slice(), words, longs),
    );
    Ok(or(types, or(operand, or(returned, undefined))))
}

#[tactic(auto, unfolding(crate::specs::Faults::size_fault))]
fn size_fault(alloc: Global, function: &Func) -> Result<Option<BrokenRule>, AllocError>
    ensures { IfOk result (λ fault. fault ≡ size_fault function.now) }
{
    let phi = at(Rule::PhiCoversPredecessors, uncovered_phi(alloc, function)?);
    let area = at(Rule::AllocInEntry, wrong_alloc(function));
    let blit = at(Rule::BlitSize, long_blit(function));
    Ok(or(phi, or(area, blit)))
}
