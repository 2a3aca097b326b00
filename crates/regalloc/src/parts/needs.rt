//! The positions at which the register of the machine that a region stands in must be free.
use crate::intervals::positions::{Range, right_after, right_before};
use crate::parts::exits::{Exit, exits, is_held};
use crate::parts::nodes::{Node, Nodes};
use crate::parts::regions::{Member, View};
use std::alloc::{AllocError, Global};

/// The positions of the part itself.
fn own_range(view: View, node: &Node, is_held: bool) -> Range {
    let (first, jump) = match view.text().stretch(node.block) {
        Some(stretch) => (stretch.first, stretch.jump),
        None => (0, 0),
    };
    let start = if node.is_entered {
        right_before(first)
    } else if node.is_passed() {
        right_before(jump)
    } else {
        node.from
    };
    let end = if is_held || node.is_passed() {
        right_after(jump)
    } else {
        node.to
    };
    Range { start, end }
}

/// Adds the positions that a part needs, with those where its value is loaded, at the ends of blocks, and saved.
fn push_ranges(
    ranges: &mut Vec<Range>,
    view: View,
    nodes: &Nodes,
    member: Member,
    is_saved: bool,
) -> Result<(), AllocError> {
    let Some(node) = nodes.node(member.node) else {
        return Ok(());
    };
    let exits = exits(view, nodes, member.leader, &node);
    ranges.push(own_range(view, &node, is_held(exits, is_saved)))?;
    if node.is_entered {
        for source in view.text().sources(node.block) {
            if nodes.last_inside(*source, member.leader).is_none()
                && let Some(stretch) = view.text().stretch(*source)
            {
                let start = right_before(stretch.jump);
                let end = right_after(stretch.jump);
                ranges.push(Range { start, end })?;
            }
        }
    }
    if !is_saved {
        for exit in exits {
            if let Exit::Landing(block) = exit
                && let Some(landing) = view.text().stretch(block)
            {
                let at = right_before(landing.first);
                ranges.push(Range { start: at, end: at })?;
            }
        }
    }
    Ok(())
}

/// The positions at which the register of the machine must be free.
pub(crate) fn ranges(
    alloc: Global,
    view: View,
    nodes: &Nodes,
    members: &[Member],
    is_saved: bool,
) -> Result<Vec<Range>, AllocError> {
    let mut ranges = Vec::new(alloc);
    for member in members {
        push_ranges(&mut ranges, view, nodes, *member, is_saved)?;
    }
    Ok(ranges)
}
