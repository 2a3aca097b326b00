//! Why a program has no bound: a way of calls from `main` to a cycle. What it answers is told to people, and nothing proved rests on it.
use crate::bounds::{Bounds, bound_of, pointed_bound};
use crate::graph::Graph;
use il_ast::Callee;
use obj_link::Linked;
use std::alloc::{AllocError, Global};
use std::mem;

/// A step of a way of calls.
#[derive(Clone, Copy)]
pub enum Step {
    /// a function, by its number
    Function(usize),
    /// the calls by pointer with so many arguments
    Pointed(usize),
}

fn step_of(graph: &Graph, node: usize) -> Step {
    match node.checked_sub(graph.functions()) {
        Some(arguments) => Step::Pointed(arguments),
        None => Step::Function(node),
    }
}

fn is_bounded(bounds: &Bounds, step: Step) -> bool {
    match step {
        Step::Function(function) => bound_of(bounds, Callee::Defined(function)).is_some(),
        Step::Pointed(arguments) => pointed_bound(bounds, arguments).is_some(),
    }
}

/// The first node without a bound that this one may call.
fn next_of(graph: &Graph, bounds: &Bounds, node: usize) -> Option<usize> {
    let mut callees = graph.callees_of(node).iter().copied();
    callees.find(|callee| !is_bounded(bounds, step_of(graph, *callee)))
}

/// Marks a node, and answers whether it was marked before.
fn was_marked(marks: &mut [bool], node: usize) -> bool {
    marks
        .get_mut(node)
        .is_none_or(|mark| mem::replace(mark, true))
}

/// A way of calls from `main` on, of functions and calls by pointer without a bound. The last step stands on it twice, unless `main` has a bound.
///
/// # Errors
///
/// Only where memory was refused.
pub fn way_to_cycle(
    alloc: Global,
    linked: &Linked<'_>,
    graph: &Graph,
    bounds: &Bounds,
) -> Result<Vec<Step>, AllocError> {
    let mut marks = vec![in alloc; false; graph.len()]?;
    let mut way = Vec::new(alloc);
    let mut node = linked.main;
    for _ in 0..graph.len() {
        way.push(step_of(graph, node))?;
        let marked = was_marked(marks.as_mut_slice(), node);
        match next_of(graph, bounds, node) {
            Some(next) if !marked => node = next,
            _ => return Ok(way),
        }
    }
    way.push(step_of(graph, node))?;
    Ok(way)
}
