//! Sweeps over the points, which let the sets grow until they are closed.
ghost use Rattle.std.specs.Prelude.{◌≡◌, ◌<◌, ◌||◌, ◌&&◌, nat_eq, nat_lt, ℕ, true, false, length, slice_get, Some, MatchBool};
ghost use Rattle.std.specs.List.{list_all};
ghost use Rattle.bitset.specs.Bits.{Bits, is_member};
ghost use Rattle.cfg_live.specs.Rows.{holds, flows, goes_on, AreSized, SameMarks, Stable, Went, Changed};

use crate::flow::flow;
use crate::graph::Graph;
use bitset::BitSet;

/// Joins the set to that of a point, and says whether that grew.
fn grow(rows: &mut [BitSet], set: &BitSet, point: usize) -> bool
    requires sized { AreSized set.now.length rows.old }
    requires inside { point < length rows.old }
    ensures as_many { length rows.new ≡ length rows.old }
    ensures lengths { (p : ℕ) (s : Bits) → slice_get rows.new p ≡ Some s → s.length ≡ set.now.length }
    ensures members { (q r : ℕ) → holds rows.new q r ≡ (holds rows.old q r || (nat_eq q point && is_member set.now r)) }
    ensures grew { MatchBool result ((r : ℕ) × (holds rows.old point r ≡ false) × (holds rows.new point r ≡ true)) (SameMarks rows.old rows.new) }
{
    rows[point].union_into(set)
}

/// Lets the set of a point grow by what flows into it, and says whether it did.
pub(crate) fn visit(rows: &mut [BitSet], set: &mut BitSet, graph: &Graph, point: usize) -> bool
    requires sized { AreSized set.old.length rows.old }
    requires inside { point < length rows.old }
    ensures length { set.new.length ≡ set.old.length }
    ensures went { Went graph.now set.old.length rows.old rows.new }
    ensures changed { Changed set.old.length rows.old rows.new result }
    ensures stable { result ≡ false → Stable graph.now set.old.length rows.new point }
    ensures taken { (r : ℕ) → flows graph.now set.old.length rows.old point r ≡ true → holds rows.new point r ≡ true }
    ensures others { (q r : ℕ) → nat_eq q point ≡ false → holds rows.new q r ≡ holds rows.old q r }
{
    flow(set, rows, graph, point);
    grow(rows, set, point)
}

/// Visits a point, if it has a set.
#[tactic(auto, using(crate::proofs::Marks::went_nowhere))]
fn visit_if_there(rows: &mut [BitSet], set: &mut BitSet, graph: &Graph, point: usize)
    requires { AreSized set.old.length rows.old }
    ensures length { set.new.length ≡ set.old.length }
    ensures went { Went graph.now set.old.length rows.old rows.new }
{
    if point < rows.len() {
        visit(rows, set, graph, point);
    }
}

/// Visits the points in this order.
pub(crate) fn sweep_along(rows: &mut [BitSet], set: &mut BitSet, graph: &Graph, order: &[usize])
    requires { AreSized set.old.length rows.old }
    ensures length { set.new.length ≡ set.old.length }
    ensures went { Went graph.now set.old.length rows.old rows.new }
{
    for point in order {
        visit_if_there(rows, set, graph, *point);
    }
}

fn are_later(points: &[usize], point: usize) -> bool
    ensures { result ≡ list_all (λ q. nat_lt point q) points.now }
{
    points.iter().all(|next| point < *next)
}

/// Whether only later points may come next.
fn goes_on(graph: &Graph, point: usize) -> bool
    ensures { result ≡ goes_on graph.now point }
{
    match graph.nexts.as_slice().get(point) {
        Some(next) => are_later(next.as_slice(), point),
        None => true,
    }
}

/// Visits the points from the last to the first.
fn sweep_back(rows: &mut [BitSet], set: &mut BitSet, graph: &Graph)
    requires { AreSized set.old.length rows.old }
    ensures length { set.new.length ≡ set.old.length }
    ensures went { Went graph.now set.old.length rows.old rows.new }
    ensures stable { (p : ℕ) → p < length rows.new → goes_on graph.now p ≡ true → Stable graph.now set.old.length rows.new p }
{
    for point in (0..rows.len()).rev() {
        visit(rows, set, graph, point);
    }
}

/// Visits a point that leads back, and says whether its set grew.
#[tactic(auto, using(crate::proofs::Marks::went_nowhere))]
fn visit_latch(rows: &mut [BitSet], set: &mut BitSet, graph: &Graph, point: usize) -> bool
    requires sized { AreSized set.old.length rows.old }
    requires inside { point < length rows.old }
    ensures length { set.new.length ≡ set.old.length }
    ensures went { Went graph.now set.old.length rows.old rows.new }
    ensures same { result ≡ false → SameMarks rows.old rows.new }
    ensures stable { result ≡ false → goes_on graph.now point ≡ false → Stable graph.now set.old.length rows.new point }
{
    if goes_on(graph, point) {
        false
    } else {
        visit(rows, set, graph, point)
    }
}

/// Visits points that lead back, up to one whose set grows, and says whether there was none.
fn latches_stand(rows: &mut [BitSet], set: &mut BitSet, graph: &Graph) -> bool
    requires { AreSized set.old.length rows.old }
    ensures length { set.new.length ≡ set.old.length }
    ensures went { Went graph.now set.old.length rows.old rows.new }
    ensures same { result ≡ true → SameMarks rows.old rows.new }
    ensures stable { result ≡ true → (p : ℕ) → p < length rows.new → goes_on graph.now p ≡ false → Stable graph.now set.old.length rows.new p }
{
    for point in 0..rows.len() {
        if visit_latch(rows, set, graph, point) {
            return false;
        }
    }
    true
}

/// Of so many points an order is found only where a few sweeps weren't enough: it takes longer than these. Of more points it saves sweeps.
const FEW: usize = 1_000;

fn most_sweeps(points: usize) -> usize {
    if points <= FEW { 4 } else { 0 }
}

/// Lets the sets of few points grow by a few sweeps against the order of the points, and says whether each is stable then. Text whose loops are not nested deep, and
/// stand as they run, takes no more.
pub(crate) fn settle_soon(rows: &mut [BitSet], set: &mut BitSet, graph: &Graph) -> bool
    requires { AreSized set.old.length rows.old }
    ensures length { set.new.length ≡ set.old.length }
    ensures went { Went graph.now set.old.length rows.old rows.new }
    ensures stable { result ≡ true → (p : ℕ) → p < length rows.new → Stable graph.now set.old.length rows.new p }
{
    for _ in 0..most_sweeps(rows.len()) {
        sweep_back(rows, set, graph);
        if latches_stand(rows, set, graph) {
            return true;
        }
    }
    false
}

/// Visits each point, and says whether a set grew.
fn sweep(rows: &mut [BitSet], set: &mut BitSet, graph: &Graph) -> bool
    requires { AreSized set.old.length rows.old }
    ensures length { set.new.length ≡ set.old.length }
    ensures went { Went graph.now set.old.length rows.old rows.new }
    ensures changed { Changed set.old.length rows.old rows.new result }
    ensures stable { result ≡ false → (p : ℕ) → p < length rows.new → Stable graph.now set.old.length rows.new p }
{
    let mut changed = false;
    for point in 0..rows.len() {
        changed |= visit(rows, set, graph, point);
    }
    changed
}

/// Lets the sets grow by sweeps over all points, until each is stable.
pub(crate) fn settle(rows: &mut [BitSet], set: &mut BitSet, graph: &Graph)
    requires { AreSized set.old.length rows.old }
    ensures length { set.new.length ≡ set.old.length }
    ensures went { Went graph.now set.old.length rows.old rows.new }
    ensures stable { (p : ℕ) → p < length rows.new → Stable graph.now set.old.length rows.new p }
{
    while sweep(rows, set, graph) {}
}
