//! Why nothing bounds the stack that a program takes, in words.
use itoa::Buffer;
use obj_link::Linked;
use qbec::symbols::symbol::name_in;
use stack_bound::bounds::Bounds;
use stack_bound::cycle::{Step, way_to_cycle};
use stack_bound::graph::Graph;
use std::alloc::{AllocError, Global};

/// Adds the name of a function.
fn push_name(line: &mut Vec<u8>, linked: &Linked<'_>, number: usize) -> Result<(), AllocError> {
    match linked.functions.as_slice().get(number) {
        Some(function) => {
            line.extend_from_slice(name_in(linked.texts, function.text, function.item.name))
        }
        None => Ok(()),
    }
}

/// Adds that calls by pointer with so many arguments may mean these functions.
fn push_pointed(
    line: &mut Vec<u8>,
    linked: &Linked<'_>,
    graph: &Graph,
    arguments: usize,
) -> Result<(), AllocError> {
    let mut buffer = Buffer::new();
    line.extend_from_slice(b" calls by pointer with ")?;
    line.extend_from_slice(buffer.format(arguments).as_bytes())?;
    let word: &[u8] = match arguments {
        1 => b" argument",
        _ => b" arguments",
    };
    line.extend_from_slice(word)?;
    line.extend_from_slice(b", which may mean ")?;
    for (at, number) in graph.meant_by(arguments).iter().enumerate() {
        if at > 0 {
            line.extend_from_slice(b", ")?;
        }
        push_name(line, linked, *number)?;
    }
    Ok(())
}

/// Adds that a function makes the next step of a way; what a call by pointer may mean was said with it.
fn push_call(
    line: &mut Vec<u8>,
    linked: &Linked<'_>,
    graph: &Graph,
    from: usize,
    to: Step,
) -> Result<(), AllocError> {
    push_name(line, linked, from)?;
    match to {
        Step::Function(number) => {
            line.extend_from_slice(b" calls ")?;
            push_name(line, linked, number)
        }
        Step::Pointed(arguments) => push_pointed(line, linked, graph, arguments),
    }
}

/// The line that shows a way of calls from `main` to a cycle.
///
/// # Errors
///
/// Only where memory was refused.
pub(crate) fn reason(
    alloc: Global,
    linked: &Linked<'_>,
    graph: &Graph,
    bounds: &Bounds,
) -> Result<Vec<u8>, AllocError> {
    let way = way_to_cycle(alloc, linked, graph, bounds)?;
    let mut line = Vec::new(alloc);
    line.extend_from_slice(b"no bound")?;
    for at in 1..way.len() {
        if let Step::Function(from) = way[at - 1] {
            line.extend_from_slice(if at == 1 { b": " } else { b"; " })?;
            push_call(&mut line, linked, graph, from, way[at])?;
        }
    }
    line.extend_from_slice(b"\n")?;
    Ok(line)
}
