//! What a region saves and costs in a register of the machine.
use crate::intervals::accesses::{Access, Kind};
use crate::parts::balance::{ARGUMENTS, Balance};
use crate::parts::exits::{Exit, exits, outside};
use crate::parts::nodes::{Node, Nodes};
use crate::parts::regions::{Member, View};

/// What the accesses save, where saving a new value costs so much.
fn gains(accesses: &[Access], save: u64) -> Balance {
    let mut balance = Balance::default();
    for access in accesses {
        balance.gain = balance.gain.saturating_add(access.weight);
        let argument = usize::from(access.hint.argument);
        if argument < ARGUMENTS {
            let through = access.hint.weight.saturating_mul(2);
            balance.through[argument] = balance.through[argument].saturating_add(through);
        }
        if access.is_new() {
            balance.eager = balance.eager.saturating_add(save);
            balance.has_new = true;
        }
    }
    balance
}

/// What it costs to load the value for the part, where a move in its block costs `once`.
fn loads(view: View, nodes: &Nodes, leader: usize, node: &Node, once: u64) -> u64 {
    if node.is_entered {
        let often = outside(view, nodes, leader, node.block);
        return often.map_or(0, |often| often.saturating_mul(2));
    }
    let first = view.accesses_of(node).first();
    if node.is_passed() || first.is_some_and(|access| access.kind == Kind::Read) {
        once
    } else {
        0
    }
}

/// What one part of the region saves and costs.
fn member_balance(view: View, nodes: &Nodes, member: Member) -> Balance {
    let Some(node) = nodes.node(member.node) else {
        return Balance::default();
    };
    let once = view.text().often(node.block).saturating_mul(2);
    let mut balance = gains(view.accesses_of(&node), once);
    balance.loads = loads(view, nodes, member.leader, &node, once);
    let mut needs_slot = node.goes_on;
    for exit in exits(view, nodes, member.leader, &node) {
        if let Exit::Landing(block) = exit {
            let landing = view.text().often(block).saturating_mul(2);
            balance.lazy = balance.lazy.saturating_add(landing);
        }
        needs_slot = needs_slot || matches!(exit, Exit::Slot);
    }
    if needs_slot && (balance.has_new || node.is_entered) {
        balance.lazy = balance.lazy.saturating_add(once);
    }
    balance
}

/// What the region saves and costs, after `enter_all`.
pub(crate) fn balance_of(view: View, nodes: &Nodes, members: &[Member]) -> Balance {
    members
        .iter()
        .fold(Balance::default(), |all: Balance, member| {
            all.joined(member_balance(view, nodes, *member))
        })
}
