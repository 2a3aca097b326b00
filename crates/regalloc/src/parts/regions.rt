//! Parts of a register's live interval that one register of the machine may serve together, and what that saves.
use crate::intervals::accesses::Access;
use crate::intervals::demands::Demand;
use crate::intervals::facts::Facts;
use crate::intervals::text::Text;
use crate::lists::{part, set};
use crate::parts::nodes::{Node, Nodes};
use cfg_live::Live;
use std::alloc::{AllocError, Global};

/// Which parts go together.
#[derive(Clone, Copy)]
pub(crate) enum Reach {
    /// those that lie in so many loops, and lead to one another
    Loops(u32),

    /// those that the register is accessed in, and that lead to one another
    Accessed,

    /// each part alone
    Alone,
}

/// A register that is split.
#[derive(Clone, Copy)]
pub(crate) struct View<'a> {
    pub(crate) facts: &'a Facts,
    pub(crate) live: &'a Live,
    pub(crate) register: u32,
    pub(crate) accesses: &'a [Access],

    /// what they are
    pub(crate) demand: Demand,
}

/// Whether the part may go with a region.
fn is_eligible(text: &Text, node: &Node, reach: Reach) -> bool {
    if node.room.is_some() || (node.is_passed() && !node.enters) {
        return false;
    }
    match reach {
        Reach::Loops(depth) => depth <= text.depth(node.block),
        Reach::Accessed | Reach::Alone => !node.is_passed(),
    }
}

/// The part that names the region of this one; the way there is shortened.
fn leader_of(leaders: &mut [Option<usize>], number: usize) -> Option<usize> {
    let mut at = number;
    for _ in 0..leaders.len() {
        let next = leaders.get(at).copied().flatten()?;
        if next == at {
            return Some(at);
        }
        let over = leaders.get(next).copied().flatten()?;
        set(leaders, at, Some(over));
        at = over;
    }
    Some(at)
}

/// Joins the regions of parts that lead to one another; the first part of both names the region.
fn join_all(leaders: &mut [Option<usize>], text: &Text, nodes: &Nodes) {
    for (number, node) in nodes.list.iter().enumerate() {
        if node.leaves {
            for to in text.targets(node.block) {
                if let Some(block) = to
                    && let Some(next) = nodes.entering(block)
                    && let Some(left) = leader_of(leaders, number)
                    && let Some(right) = leader_of(leaders, next)
                {
                    set(leaders, left.max(right), Some(left.min(right)));
                }
            }
        }
    }
}

/// A part, and the one that names its region. In the order of members those of a region stand together.
#[derive(Clone, Copy, PartialEq, Eq, PartialOrd, Ord)]
pub(crate) struct Member {
    pub(crate) leader: usize,
    pub(crate) node: usize,
}

/// The members of the regions that the parts make with this reach, those of a region together.
pub(crate) fn members(
    alloc: Global,
    text: &Text,
    nodes: &mut Nodes,
    reach: Reach,
) -> Result<Vec<Member>, AllocError> {
    let own = nodes.list.iter().enumerate().map(|(number, node)| {
        is_eligible(text, node, reach).then_some(number)
    });
    let mut leaders: Vec<Option<usize>> = own.collect(alloc)?;
    if !matches!(reach, Reach::Alone) {
        join_all(leaders.as_mut_slice(), text, nodes);
    }
    let mut members = Vec::new(alloc);
    for (number, node) in nodes.list.iter_mut().enumerate() {
        node.leader = leader_of(leaders.as_mut_slice(), number);
        if let Some(leader) = node.leader {
            let node = number;
            members.push(Member { leader, node })?;
        }
    }
    members.sort()?;
    Ok(members)
}

impl<'a> View<'a> {
    /// The blocks of the function.
    pub(crate) fn text(&self) -> &'a Text {
        &self.facts.text
    }

    /// Whether the register is live where the block begins.
    pub(crate) fn is_wanted(&self, block: usize) -> bool {
        self.text().is_live(self.live, block, self.register)
    }

    /// The accesses of a part.
    pub(crate) fn accesses_of(&self, node: &Node) -> &'a [Access] {
        part(self.accesses, node.first, node.end)
    }
}
