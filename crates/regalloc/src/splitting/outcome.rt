//! What is done where the parts of a register stand in registers of the machine.
use crate::intervals::accesses::{Access, Kind};
use crate::parts::nodes::{Node, Nodes};
use crate::parts::regions::View;
use crate::splitting::splits::{Begin, Entry, Move, Splits, Stay, Way};
use std::alloc::{AllocError, Global};

/// A part that stands in a register of the machine.
#[derive(Clone, Copy)]
struct Standing<'a> {
    view: View<'a>,
    node: Node,
    room: usize,
}

/// Adds a move of the register before a point.
fn push_move(
    splits: &mut Splits,
    view: View,
    room: usize,
    way: Way,
    point: usize,
) -> Result<(), AllocError> {
    splits.moves.push(Move {
        point,
        way,
        register: view.register,
        room,
    })?;
    Ok(())
}

/// Adds that the register stands in the register of the machine where the block begins.
fn push_begin(
    splits: &mut Splits,
    view: View,
    block: usize,
    room: usize,
    is_saved: bool,
) -> Result<(), AllocError> {
    splits.begins.push(Begin {
        block,
        register: view.register,
        room,
        is_saved,
    })?;
    Ok(())
}

/// Whether the block begins with the value where the part has it, and asks for no more than that.
fn is_provided(standing: Standing, nodes: &Nodes, block: usize) -> bool {
    let node = standing.node;
    let room = Some(standing.room);
    node.holds
        && (nodes.landing(block) == room
            || nodes.first_part(block).is_some_and(|next| {
                next.is_entered && next.room == room && (node.is_saved || !next.is_saved)
            }))
}

/// Whether the slot must have the value behind the part: where it goes on, or a block that it leaves for asks for it there.
fn needs_slot(standing: Standing, nodes: &Nodes) -> bool {
    let Standing { view, node, .. } = standing;
    let targets = view.text().targets(node.block);
    node.goes_on
        || node.leaves
            && targets.iter().any(|to| {
                to.is_some_and(|to| view.is_wanted(to) && !is_provided(standing, nodes, to))
            })
}

/// What is done at the accesses of a part: the register stands in its register of the machine there. New values are saved at once, if the slot has the value too all
/// along, or only that of the access numbered `last`.
fn follow_accesses(
    splits: &mut Splits,
    standing: Standing,
    accesses: &[Access],
    last: Option<usize>,
) -> Result<(), AllocError> {
    let Standing { view, node, room } = standing;
    let register = view.register;
    for (number, access) in accesses.iter().enumerate() {
        let point = access.point;
        let mut behind = point.saturating_add(1);
        if access.kind == Kind::Entry {
            behind = point;
            splits.entries.push(Entry { register, room })?;
            push_begin(splits, view, node.block, room, false)?;
        } else {
            splits.stays.push(Stay {
                point,
                register,
                room,
            })?;
        }
        let is_over = number.saturating_add(1) == accesses.len() && !node.leaves && !node.goes_on;
        if access.is_new() && !is_over && (node.is_saved || last == Some(number)) {
            push_move(splits, view, room, Way::Save, behind)?;
        }
    }
    Ok(())
}

/// What is done where the value comes to the part.
fn follow_start(
    splits: &mut Splits,
    standing: Standing,
    accesses: &[Access],
    must_save: bool,
) -> Result<(), AllocError> {
    let Standing { view, node, room } = standing;
    if node.is_entered {
        push_begin(splits, view, node.block, room, node.is_saved)?;
        if must_save && let Some(stretch) = view.text().stretch(node.block) {
            push_move(splits, view, room, Way::Save, stretch.first)?;
        }
    } else if let Some(access) = accesses.first()
        && access.kind == Kind::Read
    {
        push_move(splits, view, room, Way::Load, access.point)?;
    }
    Ok(())
}

/// Loads the value at the ends of those blocks that lead to the part and don't end with it in the register of the machine.
fn follow_sources(
    splits: &mut Splits,
    standing: Standing,
    nodes: &Nodes,
) -> Result<(), AllocError> {
    let view = standing.view;
    let room = standing.room;
    for source in view.text().sources(standing.node.block) {
        let last = nodes.last_part(*source);
        let is_there = last.is_some_and(|node| node.holds && node.room == Some(room));
        if !is_there && let Some(stretch) = view.text().stretch(*source) {
            push_move(splits, view, room, Way::Load, stretch.jump)?;
        }
    }
    Ok(())
}

/// What is done for a part that stands in that register of the machine.
fn follow_node(
    splits: &mut Splits,
    view: View,
    nodes: &Nodes,
    node: &Node,
    room: usize,
) -> Result<(), AllocError> {
    let standing = Standing {
        view,
        node: *node,
        room,
    };
    let accesses = view.accesses_of(node);
    let needs = !node.is_saved && needs_slot(standing, nodes);
    let last = if needs {
        accesses.iter().rposition(|access| access.is_new())
    } else {
        None
    };
    follow_start(splits, standing, accesses, needs && last.is_none())?;
    follow_accesses(splits, standing, accesses, last)?;
    if node.is_entered {
        follow_sources(splits, standing, nodes)?;
    }
    Ok(())
}

/// What is done for a register whose parts have registers of the machine, or not.
pub(crate) fn splits_of(alloc: Global, view: View, nodes: &Nodes) -> Result<Splits, AllocError> {
    let mut splits = Splits::new(alloc);
    for node in nodes.list.iter() {
        if let Some(room) = node.room {
            follow_node(&mut splits, view, nodes, node, room)?;
        }
    }
    for landing in nodes.landings.iter() {
        push_begin(&mut splits, view, landing.block, landing.room, false)?;
        if let Some(stretch) = view.text().stretch(landing.block) {
            push_move(&mut splits, view, landing.room, Way::Save, stretch.first)?;
        }
    }
    Ok(splits)
}
