//! How the value of a region comes to its parts and leaves them.
use crate::parts::nodes::{Node, Nodes};
use crate::parts::regions::{Member, View};

/// How often the blocks run together that lead to this one and don't end with a part of the region; none where none of them ends with one.
pub(crate) fn outside(view: View, nodes: &Nodes, leader: usize, block: usize) -> Option<u64> {
    let mut often = 0u64;
    let mut is_met = false;
    for source in view.text().sources(block) {
        if nodes.last_inside(*source, leader).is_some() {
            is_met = true;
        } else {
            often = often.saturating_add(view.text().often(*source));
        }
    }
    if is_met { Some(often) } else { None }
}

/// Notes to which parts of the region the value comes from the blocks that lead to theirs, where that costs no more than to load it there.
pub(crate) fn enter_all(view: View, nodes: &mut Nodes, members: &[Member]) {
    for member in members {
        let is_entered = nodes.node(member.node).is_some_and(|node| {
            node.enters
                && outside(view, nodes, member.leader, node.block).is_some_and(|often| often
                    <= view.text().often(node.block))
        });
        if let Some(node) = nodes.list.get_mut(member.node) {
            node.is_entered = is_entered;
        }
    }
}

/// How the value leaves a block for another.
#[derive(Clone, Copy)]
pub(crate) enum Exit {
    /// it isn't wanted there
    Gone,
    /// it stays in its register of the machine
    Met,
    /// it stays in its register of the machine up to that block, to be saved there
    Landing(usize),
    /// it must be in its slot
    Slot,
}

/// Whether all blocks that lead to this one end with the value in the register of the machine.
fn is_left_for(view: View, nodes: &Nodes, leader: usize, block: usize) -> bool {
    let mut sources = view.text().sources(block).iter();
    block != 0
        && sources.all(|source| {
            let node = nodes.last_inside(*source, leader);
            node.is_some_and(|node| node.is_entered || !node.is_passed())
        })
}

/// How the value leaves a block for the target.
fn exit_of(view: View, nodes: &Nodes, leader: usize, from: usize, to: Option<usize>) -> Exit {
    let Some(block) = to.filter(|block| view.is_wanted(*block)) else {
        return Exit::Gone;
    };
    let next = nodes.first_inside(block, leader);
    if next.is_some_and(|node| node.is_entered) {
        Exit::Met
    } else if view.text().often(block) <= view.text().often(from)
        && is_left_for(view, nodes, leader, block)
    {
        Exit::Landing(block)
    } else {
        Exit::Slot
    }
}

/// How the value leaves the part's block on both ways on.
pub(crate) fn exits(view: View, nodes: &Nodes, leader: usize, node: &Node) -> [Exit; 2] {
    if !node.leaves {
        return [Exit::Gone, Exit::Gone];
    }
    let targets = view.text().targets(node.block);
    [
        exit_of(view, nodes, leader, node.block, targets[0]),
        exit_of(view, nodes, leader, node.block, targets[1]),
    ]
}

/// Whether the value stays in the register of the machine up to the end of the block, for one of these exits.
pub(crate) fn is_held(exits: [Exit; 2], is_saved: bool) -> bool {
    exits.iter().any(|exit| match exit {
        Exit::Met => true,
        Exit::Landing(_) => !is_saved,
        Exit::Gone | Exit::Slot => false,
    })
}
