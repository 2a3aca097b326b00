//! A register's live interval, cut at the ends of blocks and at calls.
use crate::intervals::live_intervals::ranges_of;
use crate::lists::set;
use crate::parts::pieces::push_ranges;
use crate::parts::regions::View;
use std::alloc::{AllocError, Global};

/// A part of a block in which a register may stand in a register of the machine: no call is in it at which it must have its value before and behind.
/// It is accessed in each part, but in blocks that it only passes through.
#[derive(Clone, Copy, Default)]
pub(crate) struct Node {
    pub(crate) block: usize,

    /// its accesses, by their numbers among those of the register: from `first` up to `end`, without that
    pub(crate) first: usize,
    pub(crate) end: usize,

    /// the positions of the first and the last of them
    pub(crate) from: usize,
    pub(crate) to: usize,

    /// whether the register has its value where the block begins, and no call is between that and the first access
    pub(crate) enters: bool,

    /// whether it must have its value where the block ends, and no call is between the last access and that
    pub(crate) leaves: bool,

    /// whether its value is wanted behind the part, in the same block or another, but may not stay in the register of the machine
    pub(crate) goes_on: bool,

    /// the number of the part that its region is named by; none where it goes with no region
    pub(crate) leader: Option<usize>,

    /// where it has a register of the machine, which one
    pub(crate) room: Option<usize>,

    /// where it has one: whether its value comes there from the blocks that lead to this one
    pub(crate) is_entered: bool,

    /// whether its slot has the value too, where the part is entered and behind each write
    pub(crate) is_saved: bool,

    /// whether the value stays in the register of the machine up to the end of the block
    pub(crate) holds: bool,
}

/// The parts of one register, in the order of the text.
#[derive(Drop)]
pub(crate) struct Nodes {
    pub(crate) list: Vec<Node>,

    /// for each block the part that it begins with, and the one that it ends with
    entering: Vec<Option<usize>>,
    leaving: Vec<Option<usize>>,

    /// blocks that the value comes to in a register of the machine, to be saved there
    pub(crate) landings: Vec<Landing>,

    /// for each block in which one it does
    landing: Vec<Option<usize>>,
}

/// A block that the value comes to in a register of the machine, to be saved there.
#[derive(Clone, Copy)]
pub(crate) struct Landing {
    pub(crate) block: usize,
    pub(crate) room: usize,
}

impl Node {
    /// Whether the register isn't accessed.
    pub(crate) fn is_passed(&self) -> bool {
        self.first == self.end
    }
}

impl Nodes {
    /// The parts of no register.
    pub(crate) fn new(alloc: Global) -> Nodes {
        Nodes {
            list: Vec::new(alloc),
            entering: Vec::new(alloc),
            leaving: Vec::new(alloc),
            landings: Vec::new(alloc),
            landing: Vec::new(alloc),
        }
    }

    /// Forgets the parts of the last register.
    fn clear(&mut self) {
        for at in self.landings.iter() {
            set(self.landing.as_mut_slice(), at.block, None);
        }
        self.landings.clear();
        for node in self.list.iter() {
            set(self.entering.as_mut_slice(), node.block, None);
            set(self.leaving.as_mut_slice(), node.block, None);
        }
        self.list.clear();
    }

    /// The parts of the register, in place of those that there were.
    pub(crate) fn fill(&mut self, view: View) -> Result<(), AllocError> {
        self.clear();
        let blocks = view.text().stretches.len();
        if self.entering.len() < blocks {
            self.entering.resize(blocks, None)?;
            self.leaving.resize(blocks, None)?;
            self.landing.resize(blocks, None)?;
        }
        let ranges = ranges_of(view.facts.intervals.as_slice(), view.register);
        push_ranges(view, self, ranges)
    }

    /// Puts a part behind the others.
    pub(crate) fn push(&mut self, node: Node) -> Result<(), AllocError> {
        let number = self.list.len();
        if node.enters {
            set(self.entering.as_mut_slice(), node.block, Some(number));
        }
        if node.leaves {
            set(self.leaving.as_mut_slice(), node.block, Some(number));
        }
        self.list.push(node)?;
        Ok(())
    }

    /// The part with that number.
    pub(crate) fn node(&self, number: usize) -> Option<Node> {
        self.list.get(number).copied()
    }

    /// The register of the machine in which the value comes to the block, to be saved there.
    pub(crate) fn landing(&self, block: usize) -> Option<usize> {
        self.landing.get(block).copied().flatten()
    }

    /// The value comes to the block in this register of the machine, to be saved there.
    pub(crate) fn land(&mut self, block: usize, room: usize) -> Result<(), AllocError> {
        let is_new = self.landing(block).is_none();
        set(self.landing.as_mut_slice(), block, Some(room));
        if is_new {
            self.landings.push(Landing { block, room })?;
        }
        Ok(())
    }

    /// The part that the block begins with.
    pub(crate) fn first_part(&self, block: usize) -> Option<Node> {
        self.node(self.entering(block)?)
    }

    /// The part that the block ends with.
    pub(crate) fn last_part(&self, block: usize) -> Option<Node> {
        self.node(self.leaving(block)?)
    }

    /// The part that the block begins with, if it goes with the region.
    pub(crate) fn first_inside(&self, block: usize, leader: usize) -> Option<Node> {
        self.first_part(block)
            .filter(|node| node.leader == Some(leader))
    }

    /// The part that the block ends with, if it goes with the region.
    pub(crate) fn last_inside(&self, block: usize, leader: usize) -> Option<Node> {
        self.last_part(block)
            .filter(|node| node.leader == Some(leader))
    }

    /// The number of the part that the block begins with.
    pub(crate) fn entering(&self, block: usize) -> Option<usize> {
        self.entering.get(block).copied().flatten()
    }

    /// The number of the part that the block ends with.
    pub(crate) fn leaving(&self, block: usize) -> Option<usize> {
        self.leaving.get(block).copied().flatten()
    }
}
