//! How the sets grow: in sweeps along an order of the points, and from there where something is still to come.
ghost use Rattle.std.specs.Prelude.{◌≡◌, ◌<◌, ℕ, length, OnOk};
ghost use Rattle.cfg_live.specs.Rows.{AreSized, Stable, Went};

use crate::graph::Graph;
use crate::order::{Order, befores, successors_first};
use crate::sweep::{settle, settle_soon, sweep_along, visit};
use crate::worklist::Worklist;
use bitset::BitSet;
use std::alloc::{AllocError, Global};

/// Visits a point, if it has a set. Where that grew, the points before it are to be visited.
#[tactic(auto, using(crate::proofs::Marks::went_nowhere))]
fn visit_listed(
    rows: &mut [BitSet],
    set: &mut BitSet,
    graph: &Graph,
    list: &mut Worklist,
    point: usize,
) -> Result<(), AllocError>
    requires { AreSized set.old.length rows.old }
    ensures length { set.new.length ≡ set.old.length }
    ensures went { Went graph.now set.old.length rows.old rows.new }
{
    list.strike(point);
    if point >= rows.len() {
        return Ok(());
    }
    if visit(rows, set, graph, point) {
        list.add_before(point)
    } else {
        Ok(())
    }
}

/// Visits a point, if it has a set. Where that grew and a loop begins there, it is noted.
#[tactic(auto, using(crate::proofs::Marks::went_nowhere))]
fn visit_noted(
    rows: &mut [BitSet],
    set: &mut BitSet,
    graph: &Graph,
    is_head: &[bool],
    grown: &mut Vec<usize>,
    point: usize,
) -> Result<(), AllocError>
    requires { AreSized set.old.length rows.old }
    ensures length { set.new.length ≡ set.old.length }
    ensures went { Went graph.now set.old.length rows.old rows.new }
{
    if point >= rows.len() {
        return Ok(());
    }
    let grows = visit(rows, set, graph, point);
    if grows && is_head.get(point) == Some(&true) {
        grown.push(point)?;
    }
    Ok(())
}

/// Visits the points in this order, and notes where loops begin with a set that grew.
fn sweep_noted(
    rows: &mut [BitSet],
    set: &mut BitSet,
    graph: &Graph,
    is_head: &[bool],
    grown: &mut Vec<usize>,
    order: &[usize],
) -> Result<(), AllocError>
    requires { AreSized set.old.length rows.old }
    ensures length { set.new.length ≡ set.old.length }
    ensures went { Went graph.now set.old.length rows.old rows.new }
{
    for point in order {
        visit_noted(rows, set, graph, is_head, grown, *point)?;
    }
    Ok(())
}

/// Visits the points on the stack, until there are none.
fn follow(
    rows: &mut [BitSet],
    set: &mut BitSet,
    graph: &Graph,
    list: &mut Worklist,
) -> Result<(), AllocError>
    requires { AreSized set.old.length rows.old }
    ensures length { set.new.length ≡ set.old.length }
    ensures went { Went graph.now set.old.length rows.old rows.new }
{
    for _ in 0..u64::MAX {
        match list.take() {
            Some(point) => visit_listed(rows, set, graph, list, point)?,
            None => return Ok(()),
        }
    }
    Ok(())
}

/// A list on which the points wait that lead to these.
fn list_before(alloc: Global, graph: &Graph, grown: &[usize]) -> Result<Worklist, AllocError> {
    let mut list = Worklist::new(alloc, befores(alloc, graph)?)?;
    for point in grown {
        list.add_before(*point)?;
    }
    Ok(list)
}

/// Visits the points that lead to these, and where sets grow, those that lead there.
#[tactic(auto, using(crate::proofs::Marks::went_nowhere))]
fn follow_grown(
    alloc: Global,
    rows: &mut [BitSet],
    set: &mut BitSet,
    graph: &Graph,
    grown: &[usize],
) -> Result<(), AllocError>
    requires { AreSized set.old.length rows.old }
    ensures length { set.new.length ≡ set.old.length }
    ensures went { Went graph.now set.old.length rows.old rows.new }
{
    if grown.is_empty() {
        return Ok(());
    }
    let mut list = list_before(alloc, graph, grown)?;
    follow(rows, set, graph, &mut list)
}

/// Where in the order the first point stands that leads to a head.
fn first_latch(order: &Order, graph: &Graph) -> usize {
    let nexts = graph.nexts.as_slice();
    let first = order.points.iter().position(|point| {
        nexts.get(*point).is_some_and(|next| next.as_slice().iter().any(|at| order.has_head(*at)))
    });
    first.unwrap_or(0)
}

/// Where in the order stands what is behind the last head.
fn behind_heads(order: &Order) -> usize {
    let last = order
        .points
        .iter()
        .rposition(|point| order.has_head(*point));
    last.map_or(0, |last| last.saturating_add(1))
}

/// Visits the points in this order that may lie in loops, and again those to which loops lead with sets that grew.
fn sweep_loops(
    alloc: Global,
    rows: &mut [BitSet],
    set: &mut BitSet,
    graph: &Graph,
    order: &Order,
) -> Result<(), AllocError>
    requires { AreSized set.old.length rows.old }
    ensures length { set.new.length ≡ set.old.length }
    ensures went { Went graph.now set.old.length rows.old rows.new }
{
    let mut grown = Vec::new(alloc);
    let (first, end) = (first_latch(order, graph), behind_heads(order));
    let points = order.points.get(first..end).unwrap_or(&[]);
    sweep_noted(
        rows,
        set,
        graph,
        order.is_head.as_slice(),
        &mut grown,
        points,
    )?;
    follow_grown(alloc, rows, set, graph, grown.as_slice())
}

/// The same, if there are loops.
#[tactic(auto, using(crate::proofs::Marks::went_nowhere))]
fn sweep_any_loops(
    alloc: Global,
    rows: &mut [BitSet],
    set: &mut BitSet,
    graph: &Graph,
    order: &Order,
) -> Result<(), AllocError>
    requires { AreSized set.old.length rows.old }
    ensures length { set.new.length ≡ set.old.length }
    ensures went { Went graph.now set.old.length rows.old rows.new }
{
    if order.is_head.iter().any(|is_head| *is_head) {
        sweep_loops(alloc, rows, set, graph, order)
    } else {
        Ok(())
    }
}

/// Lets the sets grow until each point is stable. In a sweep along an order of the points, or two where there are loops, most of the growth is meant to come; then
/// only points behind which a set grew are visited.
fn spread_along(
    alloc: Global,
    rows: &mut [BitSet],
    set: &mut BitSet,
    graph: &Graph,
    order: &Order,
) -> Result<(), AllocError>
    requires { AreSized set.old.length rows.old }
    ensures went { Went graph.now set.old.length rows.old rows.new }
    ensures stable { OnOk result ((p : ℕ) → p < length rows.new → Stable graph.now set.old.length rows.new p) }
{
    sweep_along(rows, set, graph, order.points.as_slice());
    sweep_any_loops(alloc, rows, set, graph, order)?;
    settle(rows, set, graph);
    Ok(())
}

/// Lets the sets grow until each point is stable: by a few sweeps against the order of the text, and where more is to come, along an order that is found.
pub(crate) fn spread(
    alloc: Global,
    rows: &mut [BitSet],
    set: &mut BitSet,
    graph: &Graph,
) -> Result<(), AllocError>
    requires { AreSized set.old.length rows.old }
    ensures went { Went graph.now set.old.length rows.old rows.new }
    ensures stable { OnOk result ((p : ℕ) → p < length rows.new → Stable graph.now set.old.length rows.new p) }
{
    if settle_soon(rows, set, graph) {
        return Ok(());
    }
    let order = successors_first(alloc, graph)?;
    spread_along(alloc, rows, set, graph, &order)
}
