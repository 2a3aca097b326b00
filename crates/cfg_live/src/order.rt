//! An order of the points in which most of the growth of live sets comes at once.
use crate::graph::Graph;
use il_ast::Few;
use std::alloc::{AllocError, Global};

/// How far a walk has come with a point.
#[derive(Clone, Copy, PartialEq, Eq)]
enum Visit {
    New,
    Open,
    Left,
}

/// A point on a walk's way, and how many of those that come next it hasn't looked at.
#[derive(Clone, Copy)]
struct Step {
    point: usize,
    ahead: usize,
}

/// A walk through the graph, depth first: the way to where it stands, the points that it left, in that order, and those to which ways led back.
#[derive(Drop)]
struct Walk {
    visits: Vec<Visit>,
    way: Vec<Step>,
    left: Vec<usize>,
    is_head: Vec<bool>,
}

/// An order of the points, and where its loops are entered.
#[derive(Drop)]
pub(crate) struct Order {
    pub(crate) points: Vec<usize>,

    /// for each point whether one that comes before it in the order may lead to it
    pub(crate) is_head: Vec<bool>,
}

impl Order {
    /// Whether a point that comes before this one in the order may lead to it.
    pub(crate) fn has_head(&self, point: usize) -> bool {
        self.is_head.get(point) == Some(&true)
    }
}

fn mark(visits: &mut [Visit], point: usize, visit: Visit) {
    if let Some(at) = visits.get_mut(point) {
        *at = visit;
    }
}

fn enter(walk: &mut Walk, edges: &[Few<usize>], point: usize) -> Result<(), AllocError> {
    if walk.visits.get(point) == Some(&Visit::New) {
        mark(walk.visits.as_mut_slice(), point, Visit::Open);
        let ahead = edges.get(point).map_or(0, |next| next.len());
        walk.way.push(Step { point, ahead })?;
    }
    Ok(())
}

fn note_head(is_head: &mut [bool], point: usize) {
    if let Some(at) = is_head.get_mut(point) {
        *at = true;
    }
}

/// The last of these points that wasn't entered, behind how many of them it stands. Those behind it that the walk stands in are heads.
fn unseen(visits: &[Visit], is_head: &mut [bool], points: &[usize]) -> Option<(usize, usize)> {
    for at in (0..points.len()).rev() {
        match visits.get(points[at]) {
            Some(Visit::New) => return Some((points[at], at)),
            Some(Visit::Open) => note_head(is_head, points[at]),
            _ => {}
        }
    }
    None
}

/// The next point on a way from where the walk stands, and how many that come next are then left to look at.
fn next_of(walk: &mut Walk, edges: &[Few<usize>], step: Step) -> Option<(usize, usize)> {
    let next = edges.get(step.point)?.as_slice().get(..step.ahead)?;
    unseen(walk.visits.as_slice(), walk.is_head.as_mut_slice(), next)
}

/// Goes on from where the walk stands, or leaves it.
fn pass(walk: &mut Walk, edges: &[Few<usize>], step: Step) -> Result<(), AllocError> {
    if let Some((next, ahead)) = next_of(walk, edges, step) {
        if let Some(last) = walk.way.last_mut() {
            last.ahead = ahead;
        }
        return enter(walk, edges, next);
    }
    walk.way.pop();
    mark(walk.visits.as_mut_slice(), step.point, Visit::Left);
    walk.left.push(step.point)?;
    Ok(())
}

fn walk_from(walk: &mut Walk, edges: &[Few<usize>], point: usize) -> Result<(), AllocError> {
    enter(walk, edges, point)?;
    for _ in 0..u64::MAX {
        let Some(step) = walk.way.last().copied() else {
            break;
        };
        pass(walk, edges, step)?;
    }
    Ok(())
}

/// A walk along these edges from each root in turn.
fn walked(alloc: Global, edges: &[Few<usize>], roots: &[usize]) -> Result<Walk, AllocError> {
    let points = edges.len();
    let mut walk = Walk {
        visits: vec![in alloc; Visit::New; points]?,
        way: Vec::with_capacity(alloc, points)?,
        left: Vec::with_capacity(alloc, points)?,
        is_head: vec![in alloc; false; points]?,
    };
    for root in roots {
        walk_from(&mut walk, edges, *root)?;
    }
    Ok(walk)
}

/// All points, those first where walks against the edges come to their ends.
fn roots(alloc: Global, graph: &Graph) -> Result<Vec<usize>, AllocError> {
    let points: Vec<usize> = (0..graph.nexts.len()).collect(alloc)?;
    let edges = befores(alloc, graph)?;
    let walk = walked(alloc, edges.as_slice(), points.as_slice())?;
    Ok(walk.left)
}

/// The points in an order in which each comes after those that may come next, but for loops: a depth-first postorder. The walk begins at the first point, where a
/// function does; where not all are found from there, it begins where walks against the edges come to their ends, so that a loop is entered at its head whatever
/// the order of the text.
pub(crate) fn successors_first(alloc: Global, graph: &Graph) -> Result<Order, AllocError> {
    let edges = graph.nexts.as_slice();
    let mut walk = walked(alloc, edges, &[0])?;
    if walk.left.len() < edges.len() {
        let roots = roots(alloc, graph)?;
        walk = walked(alloc, edges, roots.as_slice())?;
    }
    Ok(Order {
        points: walk.left,
        is_head: walk.is_head,
    })
}

fn no_edges(alloc: Global, points: usize) -> Result<Vec<Few<usize>>, AllocError> {
    let mut edges = Vec::with_capacity(alloc, points)?;
    for _ in 0..points {
        edges.push(Few::new(alloc))?;
    }
    Ok(edges)
}

fn push_edges(edges: &mut [Few<usize>], next: &[usize], point: usize) -> Result<(), AllocError> {
    for behind in next {
        if let Some(before) = edges.get_mut(*behind) {
            before.push(point)?;
        }
    }
    Ok(())
}

/// For each point, the points behind which it may come.
pub(crate) fn befores(alloc: Global, graph: &Graph) -> Result<Vec<Few<usize>>, AllocError> {
    let mut edges = no_edges(alloc, graph.nexts.len())?;
    for (point, next) in graph.nexts.as_slice().iter().enumerate() {
        push_edges(edges.as_mut_slice(), next.as_slice(), point)?;
    }
    Ok(edges)
}
