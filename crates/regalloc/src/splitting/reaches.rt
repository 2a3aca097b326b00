//! Gives the regions of a register registers of the machine: the widest that one is free for first. Says what it would cost to split a register.
use crate::parts::exits::{Exit, enter_all, exits, is_held};
use crate::parts::needs::ranges;
use crate::parts::nodes::Nodes;
use crate::parts::regions::{Member, Reach, View, members};
use crate::parts::savings::balance_of;
use crate::places::rooms::{Rooms, room_for_part};
use std::alloc::{AllocError, Global};

/// Gives the region a register of the machine.
fn give(
    view: View,
    nodes: &mut Nodes,
    members: &[Member],
    room: usize,
    is_saved: bool,
) -> Result<(), AllocError> {
    for member in members {
        let Some(node) = nodes.node(member.node) else {
            continue;
        };
        let exits = exits(view, nodes, member.leader, &node);
        if let Some(at) = nodes.list.get_mut(member.node) {
            at.is_saved = is_saved;
            at.holds = is_held(exits, is_saved);
            if node.is_entered || !node.is_passed() {
                at.room = Some(room);
            }
        }
        if !is_saved {
            for exit in exits {
                if let Exit::Landing(block) = exit {
                    nodes.land(block, room)?;
                }
            }
        }
    }
    Ok(())
}

/// Gives the region a register of the machine, if one is free and saves something.
fn give_region(
    alloc: Global,
    view: View,
    nodes: &mut Nodes,
    rooms: &mut Rooms,
    members: &[Member],
) -> Result<(), AllocError> {
    enter_all(view, nodes, members);
    let balance = balance_of(view, nodes, members);
    if balance.best() == 0 {
        return Ok(());
    }
    let is_saved = balance.is_saved();
    let ranges = ranges(alloc, view, nodes, members, is_saved)?;
    match room_for_part(rooms, view.demand.hint.wanted(), balance, ranges.as_slice()) {
        Some(k) => {
            rooms.take(k, ranges.as_slice());
            give(view, nodes, members, k, is_saved)
        }
        None => Ok(()),
    }
}

/// Gives registers of the machine to the regions that the parts make with this reach.
fn give_within(
    alloc: Global,
    view: View,
    nodes: &mut Nodes,
    rooms: &mut Rooms,
    reach: Reach,
) -> Result<(), AllocError> {
    let members = members(alloc, view.text(), nodes, reach)?;
    for region in members.chunk_by(|one, other| one.leader == other.leader) {
        give_region(alloc, view, nodes, rooms, region)?;
    }
    Ok(())
}

/// Of the parts that the register is accessed in and that have no register of the machine: in how many loops one lies, at most.
fn depth_left(view: View, nodes: &Nodes) -> Option<u32> {
    nodes
        .list
        .iter()
        .filter(|node| node.room.is_none() && !node.is_passed())
        .map(|node| view.text().depth(node.block))
        .max()
}

/// How many loops around one another are looked at, at most.
const LOOPS: u32 = 8;

/// Gives registers of the machine to all of the live interval at once; else to what lies in loops, the outer ones first; else to what is accessed, and at last to
/// each part alone.
pub(crate) fn give_all(
    alloc: Global,
    view: View,
    nodes: &mut Nodes,
    rooms: &mut Rooms,
) -> Result<(), AllocError> {
    give_within(alloc, view, nodes, rooms, Reach::Loops(0))?;
    if nodes.list.len() < 2 {
        return Ok(());
    }
    for depth in 1..LOOPS {
        match depth_left(view, nodes) {
            Some(most) if depth <= most => {
                give_within(alloc, view, nodes, rooms, Reach::Loops(depth))?;
            }
            _ => break,
        }
    }
    if depth_left(view, nodes).is_none() {
        return Ok(());
    }
    give_within(alloc, view, nodes, rooms, Reach::Accessed)?;
    give_within(alloc, view, nodes, rooms, Reach::Alone)
}

/// How much more the register costs, in half instructions, if it is split and finds what it wants, than in a register that callees keep: what its accesses cost in the
/// slot, but for what they would save in registers of arguments, less what its widest regions save, each in the register of the machine that saves most.
pub(crate) fn split_costs_over_kept(
    alloc: Global,
    nodes: &mut Nodes,
    view: View,
) -> Result<u64, AllocError> {
    nodes.fill(view)?;
    let members = members(alloc, view.text(), nodes, Reach::Loops(0))?;
    let mut cost = view.demand.weight;
    for region in members.chunk_by(|one, other| one.leader == other.leader) {
        enter_all(view, nodes, region);
        cost = cost.saturating_sub(balance_of(view, nodes, region).best());
    }
    Ok(cost)
}
