//! The lines that show how much stack a program takes.
ghost use Rattle.std.specs.Prelude.{◌≡◌, ◌++◌, map, IfOk, IfErr, OnOk, decimal, MatchResult};
ghost use Rattle.il_ast.specs.declared.program.Program.{Program};
ghost use Rattle.obj_link.specs.Prelude.{IsProgram, program, shown};
ghost use Rattle.qbec.specs.declared.error.CompileError.TheVariants.{Memory};
ghost use Rattle.qbec.specs.Refusals.{Refuses, AreProgram};
ghost use Rattle.stack_bound.specs.Bounds.{AreBounds, bound_of};
ghost use Rattle.il_ast.specs.declared.value.Callee.TheVariants.{Defined};
ghost use Rattle.commands.specs.StackLines.{IsLastLine, ShowsProgram, ShowsStack, bound_text, place_words, stack_line, stack_lines, use_line};

use crate::stack_reason::reason;
use il_ast::limits::STACK_ROOM;
use il_ast::{Callee, Func, InText};
use il_types::Checked;
use il_types::cost::capped_need;
use itoa::Buffer;
use obj_link::Linked;
use obj_link::linking::resolve::resolve;
use qbec::CompileError;
use qbec::error::link_refusal;
use qbec::symbols::symbol::name_in;
use qbec::texts::checked_texts;
use stack_bound::bounds::{Bounds, bound_of};
use stack_bound::graph::{Graph, graph_of};
use stack_bound::greatest::{bounds_of, greatest_use};
use std::alloc::{AllocError, Global};

fn push_number(lines: &mut Vec<u8>, number: u64) -> Result<(), AllocError>
    ensures { OnOk result (lines.new.items ≡ lines.old.items ++ decimal number) }
{
    let mut buffer = Buffer::new();
    lines.extend_from_slice(buffer.format(number).as_bytes())
}

fn push_bound(lines: &mut Vec<u8>, bound: Option<u64>) -> Result<(), AllocError>
    ensures { OnOk result (lines.new.items ≡ lines.old.items ++ bound_text bound) }
{
    match bound {
        Some(bound) => push_number(lines, bound),
        None => lines.extend_from_slice(b"-"),
    }
}

/// Adds the line of a function with this bound.
#[tactic(auto, unfolding(crate::specs::StackLines::stack_line))]
fn push_line(
    lines: &mut Vec<u8>,
    texts: &[Checked],
    function: &InText<&Func>,
    bound: Option<u64>,
) -> Result<(), AllocError>
    ensures { OnOk result (lines.new.items ≡ lines.old.items ++ stack_line texts.now (shown function.now) bound) }
{
    push_number(lines, capped_need(function.item))?;
    lines.extend_from_slice(b" ")?;
    push_bound(lines, bound)?;
    lines.extend_from_slice(b" ")?;
    lines.extend_from_slice(name_in(texts, function.text, function.item.name))?;
    lines.extend_from_slice(b"\n")
}

/// The lines of functions.
fn lines_of(
    alloc: Global,
    texts: &[Checked],
    bounds: &Bounds,
    functions: &[InText<&Func>],
) -> Result<Vec<u8>, AllocError>
    ensures { IfOk result (λ v. v.items ≡ stack_lines texts.now bounds.now 0 (map shown functions.now)) }
{
    let mut lines = Vec::new(alloc);
    for number in 0..functions.len() {
        let bound = bound_of(bounds, Callee::Defined(number));
        push_line(&mut lines, texts, &functions[number], bound)?;
    }
    Ok(lines)
}

/// Whether so many bytes are within the stack, in words.
fn place_words(bytes: u64) -> &'static [u8]
    ensures { result.now ≡ place_words bytes }
{
    if bytes <= STACK_ROOM as u64 {
        b" bytes, within the "
    } else {
        b" bytes, beyond the "
    }
}

/// The line of a program that takes at most so many bytes.
#[tactic(auto, unfolding(crate::specs::StackLines::use_line))]
fn use_line(alloc: Global, bytes: u64) -> Result<Vec<u8>, AllocError>
    ensures { IfOk result (λ v. v.items ≡ use_line bytes) }
{
    let mut line = Vec::new(alloc);
    line.extend_from_slice(b"at most ")?;
    push_number(&mut line, bytes)?;
    line.extend_from_slice(place_words(bytes))?;
    push_number(&mut line, STACK_ROOM as u64)?;
    line.extend_from_slice(b" of the stack\n")?;
    Ok(line)
}

/// The last line.
fn last_line(
    alloc: Global,
    linked: &Linked<'_>,
    graph: &Graph,
    bounds: &Bounds,
) -> Result<Vec<u8>, AllocError>
    requires { AreBounds (program linked.now) bounds.now }
    ensures { IfOk result (λ v. IsLastLine (program linked.now) (bound_of bounds.now (Defined linked.now.main)) v.items) }
{
    match greatest_use(linked, bounds) {
        Some(bytes) => use_line(alloc, bytes),
        None => reason(alloc, linked, graph, bounds),
    }
}

fn lines_with(
    alloc: Global,
    linked: &Linked<'_>,
    graph: &Graph,
    bounds: &Bounds,
) -> Result<Vec<u8>, AllocError>
    requires { AreBounds (program linked.now) bounds.now }
    ensures { IfOk result (λ v. ShowsProgram linked.now.texts.now (program linked.now) v.items) }
{
    let mut lines = lines_of(alloc, linked.texts, bounds, linked.functions.as_slice())?;
    let last = last_line(alloc, linked, graph, bounds)?;
    lines.extend_from_slice(last.as_slice())?;
    Ok(lines)
}

fn linked_lines(alloc: Global, linked: &Linked<'_>) -> Result<Vec<u8>, AllocError>
    ensures { IfOk result (λ v. ShowsProgram linked.now.texts.now (program linked.now) v.items) }
{
    let graph = graph_of(alloc, linked)?;
    let bounds = bounds_of(alloc, linked, &graph)?;
    lines_with(alloc, linked, &graph, &bounds)
}

/// The same, of a program that memory alone can refuse.
fn shown_lines(alloc: Global, linked: &Linked<'_>) -> Result<Vec<u8>, CompileError>
    ensures { MatchResult result (λ v. ShowsProgram linked.now.texts.now (program linked.now) v.items) (λ e. e ≡ Memory) }
{
    match linked_lines(alloc, linked) {
        Ok(lines) => Ok(lines),
        Err(error) => Err(CompileError::from(error)),
    }
}

/// How much stack the program that texts are takes, in lines. Each function has one, in the order of the texts: what it needs, its bound, or `-` where it has none, and its
/// name without its `$`; all in bytes. The last line says the most that the program takes, whatever its argument words and however long it runs; or, where it may
/// come to a cycle of calls, which one.
///
/// # Errors
///
/// Those of [`qbec::compile::compile`], for the same texts.
pub fn stack_listing(alloc: Global, texts: &[&[u8]]) -> Result<Vec<u8>, CompileError>
    ensures shows { IfOk result (λ v. ShowsStack (map (λ t. t.now) texts.now) v.items) }
    ensures refused { IfErr result (λ e. Refuses e (map (λ t. t.now) texts.now)) }
    ensures only { (p : Program) → AreProgram (map (λ t. t.now) texts.now) p → IfErr result (λ e. e ≡ Memory) }
{
    match checked_texts(alloc, texts) {
        Ok(checked) => match resolve(alloc, checked.as_slice()) {
            Ok(linked) => shown_lines(alloc, &linked),
            Err(error) => Err(link_refusal(alloc, error)),
        },
        Err(error) => Err(error),
    }
}
