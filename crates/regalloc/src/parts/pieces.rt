//! Cuts a register's ranges at the ends of blocks and at calls.
use crate::intervals::accesses::{Access, Kind};
use crate::intervals::positions::{Range, right_after, right_before};
use crate::intervals::text::Stretch;
use crate::lists::rest;
use crate::parts::nodes::{Node, Nodes};
use crate::parts::regions::View;
use std::alloc::AllocError;

/// A range of the register, as far as it is in a block.
#[derive(Clone, Copy)]
struct Piece {
    block: usize,
    range: Range,
    enters: bool,
    leaves: bool,
}

/// Whether a call stands between the positions.
fn is_cut(view: View, start: usize, end: usize) -> bool {
    view.facts.demands.is_over_call(Range { start, end })
}

/// A part of the piece without accesses.
fn empty_node(piece: Piece, first: usize) -> Node {
    Node {
        block: piece.block,
        first,
        end: first,
        from: piece.range.start,
        to: piece.range.end,
        ..Node::default()
    }
}

/// The part that begins with this access, of that number.
fn node_from(piece: Piece, number: usize, access: &Access) -> Node {
    Node {
        from: access.position(),
        to: access.position(),
        end: number.saturating_add(1),
        ..empty_node(piece, number)
    }
}

/// The part that one more access of the piece belongs to: the last one, or behind a call a new one, in front of which the last one is added.
fn next_part(
    view: View,
    nodes: &mut Nodes,
    last: Option<Node>,
    piece: Piece,
    number: usize,
    access: &Access,
) -> Result<Node, AllocError> {
    let at = access.position();
    let Some(node) = last else {
        let begins = access.kind != Kind::Entry
            && piece.enters
            && !is_cut(view, piece.range.start, at);
        return Ok(Node {
            enters: begins,
            ..node_from(piece, number, access)
        });
    };
    if at / 2 == node.to / 2 || !is_cut(view, node.to, at) {
        return Ok(Node {
            end: number.saturating_add(1),
            to: at,
            ..node
        });
    }
    nodes.push(Node {
        goes_on: true,
        ..node
    })?;
    Ok(node_from(piece, number, access))
}

/// Adds the parts of a piece whose first access has that number, or would have it: one without accesses where the register only passes through the block. Answers
/// the number behind its last access.
fn push_piece(
    view: View,
    nodes: &mut Nodes,
    piece: Piece,
    first: usize,
) -> Result<usize, AllocError> {
    let mut last: Option<Node> = None;
    let mut number = first;
    for access in rest(view.accesses, first) {
        if piece.range.end < access.position() {
            break;
        }
        last = Some(next_part(view, nodes, last, piece, number, access)?);
        number = number.saturating_add(1);
    }
    let from = last.map_or(piece.range.start, |node| node.to);
    let leaves = piece.leaves && !is_cut(view, from, piece.range.end);
    match last {
        Some(node) => nodes.push(Node {
            leaves,
            goes_on: piece.leaves && !leaves,
            ..node
        })?,
        None if piece.enters && leaves => nodes.push(Node {
            enters: true,
            leaves: true,
            ..empty_node(piece, number)
        })?,
        None => {}
    }
    Ok(number)
}

/// The piece of the range that is in the block.
fn piece_in(block: usize, stretch: Stretch, range: Range) -> Piece {
    let start = right_before(stretch.first);
    let end = right_after(stretch.jump);
    Piece {
        block,
        range: Range {
            start: range.start.max(start),
            end: range.end.min(end),
        },
        enters: range.start <= start,
        leaves: end <= range.end,
    }
}

/// Adds the parts of a range whose first access has that number; answers the number behind its last access.
fn push_range(
    view: View,
    nodes: &mut Nodes,
    range: Range,
    first: usize,
) -> Result<usize, AllocError> {
    let mut number = first;
    let from = view.text().block_of(range.start / 2);
    let to = view.text().block_of(range.end / 2);
    for block in from..to.saturating_add(1) {
        if let Some(stretch) = view.text().stretch(block) {
            let piece = piece_in(block, stretch, range);
            number = push_piece(view, nodes, piece, number)?;
        }
    }
    Ok(number)
}

/// Adds the parts of all ranges; where the register is read and written at one point, the range that ends there and the one that begins are one, so that it has one
/// place there.
pub(crate) fn push_ranges(
    view: View,
    nodes: &mut Nodes,
    ranges: &[Range],
) -> Result<(), AllocError> {
    let Some(first) = ranges.first() else {
        return Ok(());
    };
    let mut number = 0usize;
    let mut open = *first;
    for range in rest(ranges, 1) {
        if range.start % 2 == 1 && range.start == open.end.saturating_add(1) {
            open.end = range.end;
        } else {
            number = push_range(view, nodes, open, number)?;
            open = *range;
        }
    }
    push_range(view, nodes, open, number)?;
    Ok(())
}
