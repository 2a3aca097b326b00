//! The candidates of a program: small functions whose calls are done in place.
ghost use Rattle.std.specs.Prelude.{◌≡◌, IfOk, IfSome, Some, map, slice_get};
ghost use Rattle.il_ast.specs.declared.program.Program.{Program};
ghost use Rattle.il_ast.specs.declared.program.Target.TheVariants.{Code};
ghost use Rattle.il_ast.specs.declared.value.Callee.TheVariants.{Defined};
ghost use Rattle.obj_link.specs.Prelude.{program};
ghost use Rattle.qbec.specs.Pipeline.{AreGood, AreCandidatesAt, AreCandidatesIn, AreCandidatesMeant, IsCandidateMeant};

use crate::pipeline::candidate_code;
use il_ast::{Callee, Target};
use inlining::choice::worthy_functions;
use obj_link::Linked;
use std::alloc::{AllocError, Global};
use vcode::VFunc;

fn is_marked(marks: &[bool], number: usize) -> bool {
    matches!(marks.get(number), Some(true))
}

/// The code of the function with this number, with calls of the candidates that there are in place, if it stands in this text and its calls are to be done in place.
fn candidate_at(
    alloc: Global,
    linked: &Linked<'_>,
    worthy: &[bool],
    below: &[Option<VFunc>],
    text: usize,
    number: usize,
) -> Result<Option<VFunc>, AllocError>
    requires good { AreGood linked.now.functions }
    requires below { AreCandidatesAt (program linked.now) text below.now }
    ensures { IfOk result (λ o. IfSome o (λ v. IsCandidateMeant (program linked.now) text (Code (Defined number)) v)) }
{
    match linked.functions.as_slice().get(number) {
        Some(found) => {
            if found.text == text && is_marked(worthy, number) {
                candidate_code(alloc, below, found.item)
            } else {
                Ok(None)
            }
        }
        None => Ok(None),
    }
}

/// The candidate that a name of this text means, if it means one.
fn candidate_meant(
    alloc: Global,
    linked: &Linked<'_>,
    worthy: &[bool],
    below: &[Option<VFunc>],
    text: usize,
    target: &Target,
) -> Result<Option<VFunc>, AllocError>
    requires good { AreGood linked.now.functions }
    requires below { AreCandidatesAt (program linked.now) text below.now }
    ensures { IfOk result (λ o. IfSome o (λ v. IsCandidateMeant (program linked.now) text target.now v)) }
{
    match target {
        Target::Code(Callee::Defined(number)) => {
            candidate_at(alloc, linked, worthy, below, text, *number)
        },
        Target::Code(_) | Target::Object(_) => Ok(None),
    }
}

/// For each name of a text, the candidate that it means, if it means one.
fn candidates_meant(
    alloc: Global,
    linked: &Linked<'_>,
    worthy: &[bool],
    below: &[Option<VFunc>],
    text: usize,
    targets: &[Target],
) -> Result<Vec<Option<VFunc>>, AllocError>
    requires good { AreGood linked.now.functions }
    requires below { AreCandidatesAt (program linked.now) text below.now }
    ensures { IfOk result (λ v. AreCandidatesMeant (program linked.now) text targets.now v.items) }
{
    let mut candidates = Vec::with_capacity(alloc, targets.len())?;
    for target in targets {
        candidates.push(candidate_meant(alloc, linked, worthy, below, text, target)?)?;
    }
    Ok(candidates)
}

/// The candidates of the text with this number, by a table for each text; none where there is no table for it.
pub(crate) fn candidates_in(tables: &[Vec<Option<VFunc>>], text: usize) -> &[Option<VFunc>]
    ensures { (p : Program) → AreCandidatesIn p (map (λ t. t.items) tables.now) → AreCandidatesAt p text result.now }
{
    match tables.get(text) {
        Some(candidates) => candidates.as_slice(),
        None => &[],
    }
}

/// For each name of the text with this number, the candidate that it means, if it means one.
fn candidates_at(
    alloc: Global,
    linked: &Linked<'_>,
    worthy: &[bool],
    below: &[Vec<Option<VFunc>>],
    text: usize,
    targets: &[Target],
) -> Result<Vec<Option<VFunc>>, AllocError>
    requires good { AreGood linked.now.functions }
    requires below { AreCandidatesIn (program linked.now) (map (λ t. t.items) below.now) }
    requires targets { slice_get linked.now.targets text ≡ Some targets.now }
    ensures { IfOk result (λ v. AreCandidatesAt (program linked.now) text v.items) }
{
    candidates_meant(
        alloc,
        linked,
        worthy,
        candidates_in(below, text),
        text,
        targets,
    )
}

/// For each text of a program and each name of the text, the candidate that it means, if it means one: a function of the same text, with calls of the candidates that there
/// are in place.
fn candidates_over(
    alloc: Global,
    linked: &Linked<'_>,
    worthy: &[bool],
    below: &[Vec<Option<VFunc>>],
) -> Result<Vec<Vec<Option<VFunc>>>, AllocError>
    requires good { AreGood linked.now.functions }
    requires below { AreCandidatesIn (program linked.now) (map (λ t. t.items) below.now) }
    ensures { IfOk result (λ v. AreCandidatesIn (program linked.now) (map (λ t. t.items) v.items)) }
{
    let mut tables = Vec::with_capacity(alloc, linked.targets.len())?;
    for (text, targets) in linked.targets.as_slice().iter().enumerate() {
        tables.push(candidates_at(alloc, linked, worthy, below, text, targets.as_slice())?)?;
    }
    Ok(tables)
}

/// For each text of a program and each name of the text, the candidate that it means, if it means one: a function of the same text that makes no block of memory and
/// that is short or called in one place alone. Calls of such functions are in place in it, its own among them, at most one in another.
///
/// # Errors
///
/// Only where memory was refused.
pub fn candidates_of(
    alloc: Global,
    linked: &Linked<'_>,
) -> Result<Vec<Vec<Option<VFunc>>>, AllocError>
    requires { AreGood linked.now.functions }
    ensures { IfOk result (λ v. AreCandidatesIn (program linked.now) (map (λ t. t.items) v.items)) }
{
    let worthy = worthy_functions(alloc, linked)?;
    let first = candidates_over(alloc, linked, worthy.as_slice(), &[])?;
    candidates_over(alloc, linked, worthy.as_slice(), first.as_slice())
}
