//! A guess of bounds: each node of the graph is settled once all that it may call is. What lies on a cycle, or may come to one, never is, and gets no bound.
use crate::bounds::Bounds;
use crate::graph::Graph;
use il_ast::Seq;
use il_types::cost::capped_need;
use obj_link::Linked;
use std::alloc::{AllocError, Global};

/// How far the search has come.
#[derive(Drop)]
struct Search {
    /// for each node how many of its calls aren't settled
    waiting: Vec<usize>,
    /// the greatest bound of those that are
    greatest: Vec<u64>,
    /// its own, once it is settled
    bounds: Vec<Option<u64>>,
    /// the nodes that wait for nothing, in the order in which they came to that
    ready: Vec<usize>,
}

/// Hears of a call that has a bound; the node is ready where none is left.
fn release(search: &mut Search, node: usize, bound: u64) -> Result<(), AllocError> {
    if let Some(greatest) = search.greatest.get_mut(node) {
        *greatest = (*greatest).max(bound);
    }
    if let Some(count) = search.waiting.get_mut(node) {
        *count = count.saturating_sub(1);
        if *count == 0 {
            search.ready.push(node)?;
        }
    }
    Ok(())
}

fn settle(
    graph: &Graph,
    needs: &[u64],
    search: &mut Search,
    node: usize,
) -> Result<(), AllocError> {
    let most = search.greatest.get(node).copied().unwrap_or(0);
    let bound = needs.get(node).copied().unwrap_or(0).saturating_add(most);
    if let Some(at) = search.bounds.get_mut(node) {
        *at = Some(bound);
    }
    for caller in graph.callers_of(node) {
        release(search, *caller, bound)?;
    }
    Ok(())
}

fn begin(alloc: Global, graph: &Graph) -> Result<Search, AllocError> {
    let calls = (0..graph.len()).map(|node| graph.callees_of(node).len());
    let leaves = (0..graph.len()).filter(|node| graph.callees_of(*node).is_empty());
    Ok(Search {
        waiting: calls.collect(alloc)?,
        greatest: vec![in alloc; 0; graph.len()]?,
        bounds: vec![in alloc; None; graph.len()]?,
        ready: leaves.collect(alloc)?,
    })
}

/// The bounds from one node up to another.
fn bounds_from(
    alloc: Global,
    bounds: &[Option<u64>],
    from: usize,
    to: usize,
) -> Result<Seq<Option<u64>>, AllocError> {
    let list = (from..to).map(|node| bounds.get(node).copied().flatten());
    Ok(Seq::from_vec(list.collect(alloc)?))
}

/// What is likely the least bounds of a program's calls.
///
/// # Errors
///
/// Only where memory was refused.
pub(crate) fn guess(
    alloc: Global,
    linked: &Linked<'_>,
    graph: &Graph,
) -> Result<Bounds, AllocError> {
    let functions = linked.functions.as_slice().iter();
    let needs: Vec<u64> = functions.map(|f| capped_need(f.item)).collect(alloc)?;
    let mut search = begin(alloc, graph)?;
    for at in 0..graph.len() {
        let Some(node) = search.ready.get(at).copied() else {
            break;
        };
        settle(graph, needs.as_slice(), &mut search, node)?;
    }
    let bounds = search.bounds.as_slice();
    let functions = bounds_from(alloc, bounds, 0, graph.functions())?;
    let pointed = bounds_from(alloc, bounds, graph.functions(), graph.len())?;
    Ok(Bounds { functions, pointed })
}
