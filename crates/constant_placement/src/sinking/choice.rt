//! Which registers blocks set: a guess, of which nothing is proved.
use crate::points::behind_block;
use crate::sinking::known::{Known, Plan};
use crate::sinking::numbers::unread;
use cfg_live::Live;
use cfg_live::live::live;
use flow::graph::{predecessors, predecessors_of};
use il_ast::Seq;
use std::alloc::{AllocError, Global};
use std::mem;
use vcode::{Block, Jump, Line, Operand, VFunc};

/// How many registers a block sets at most.
pub(crate) const SETS: usize = 64;

/// A block as others lead to it.
#[derive(Clone, Copy)]
struct Entry {
    /// its first point
    point: usize,

    /// whether only one way leads there
    is_alone: bool,
}

fn entries(alloc: Global, blocks: &[Block<u32>]) -> Result<Vec<Entry>, AllocError> {
    let predecessors = predecessors(alloc, blocks)?;
    let mut entries = Vec::with_capacity(alloc, blocks.len())?;
    let mut point = 0usize;
    for (number, block) in blocks.iter().enumerate() {
        entries.push(Entry {
            point,
            is_alone: predecessors_of(predecessors.as_slice(), number).len() == 1,
        })?;
        point = behind_block(point, block);
    }
    Ok(entries)
}

/// Whether only the block `number` leads to that block, and that comes later in the text.
fn may_set(entries: &[Entry], number: usize, block: usize) -> bool {
    block > number && entries.get(block).is_some_and(|entry| entry.is_alone)
}

/// The two blocks behind a block, if one of them may set what the block does.
fn ways(entries: &[Entry], number: usize, block: &Block<u32>) -> Option<(usize, usize)> {
    match &block.jump {
        Jump::Branch { met, otherwise, .. }
            if may_set(entries, number, *met) || may_set(entries, number, *otherwise) => {
            Some((*met, *otherwise))
        }
        _ => None,
    }
}

/// Whether a block sets anything that one behind it may set.
fn sets_any(alloc: Global, entries: &[Entry], blocks: &[Block<u32>]) -> Result<bool, AllocError> {
    for (number, block) in blocks.iter().enumerate() {
        if ways(entries, number, block).is_some() && !unread(alloc, &[], block)?.is_empty() {
            return Ok(true);
        }
    }
    Ok(false)
}

fn sets_number(line: &Line<u32>) -> bool {
    matches!(
        line,
        Line::Set {
            value: Operand::Number(_),
            ..
        }
    )
}

/// Whether a block sets a number and branches.
fn may_sink(block: &Block<u32>) -> bool {
    matches!(block.jump, Jump::Branch { .. })
        && block.lines.as_slice().iter().any(|line| sets_number(line))
}

/// What is to be set in blocks that are still ahead, and what that is chosen by.
#[derive(Drop)]
struct Ahead {
    sets: Vec<Vec<Known>>,
    entries: Vec<Entry>,
    live: Live,
}

impl Ahead {
    /// Whether the register is live where the block begins.
    fn wants(&self, block: usize, register: u32) -> bool {
        let entry = self.entries.get(block);
        entry.is_some_and(|entry| self.live.holds(entry.point, register))
    }

    fn add(&mut self, number: usize, block: usize, known: Known) -> Result<(), AllocError> {
        if let Some(sets) = self.sets.get_mut(block)
            && sets.len() < SETS
            && may_set(self.entries.as_slice(), number, block)
        {
            sets.push(known)?;
        }
        Ok(())
    }

    /// The one of two blocks behind a block that wants the register is to set it.
    fn choose(
        &mut self,
        number: usize,
        (met, otherwise): (usize, usize),
        known: Known,
    ) -> Result<(), AllocError> {
        let is_wanted = self.wants(met, known.register);
        if is_wanted == self.wants(otherwise, known.register) {
            return Ok(());
        }
        self.add(number, if is_wanted { met } else { otherwise }, known)
    }

    /// What a block is to set.
    fn take(&mut self, alloc: Global, block: usize) -> Vec<Known> {
        match self.sets.get_mut(block) {
            Some(sets) => mem::replace(sets, Vec::new(alloc)),
            None => Vec::new(alloc),
        }
    }

    /// What a block sets, which behind it one of two ways wants, is to be set there.
    fn pass(
        &mut self,
        alloc: Global,
        number: usize,
        block: &Block<u32>,
        plan: &Plan,
    ) -> Result<(), AllocError> {
        if let Some(ways) = ways(self.entries.as_slice(), number, block) {
            for known in unread(alloc, plan.sets.as_slice(), block)?.iter() {
                self.choose(number, ways, *known)?;
            }
        }
        Ok(())
    }
}

fn nothing(alloc: Global, blocks: usize) -> Result<Vec<Vec<Known>>, AllocError> {
    let mut sets = Vec::with_capacity(alloc, blocks)?;
    for _ in 0..blocks {
        sets.push(Vec::new(alloc))?;
    }
    Ok(sets)
}

/// What each block is to set behind its lines, block by block, so that what one is to set may be set again behind it.
fn all_plans(
    alloc: Global,
    ahead: &mut Ahead,
    blocks: &[Block<u32>],
) -> Result<Vec<Plan>, AllocError> {
    let mut plans = Vec::with_capacity(alloc, blocks.len())?;
    for (number, block) in blocks.iter().enumerate() {
        let plan = Plan {
            behind: block.lines.len(),
            sets: Seq::from_vec(ahead.take(alloc, number)),
        };
        ahead.pass(alloc, number, block, &plan)?;
        plans.push(plan)?;
    }
    Ok(plans)
}

/// What each block is to set; none where no block sets what one behind it may set.
///
/// # Errors
///
/// Only where memory was refused.
pub fn choose(alloc: Global, function: &VFunc) -> Result<Option<Vec<Plan>>, AllocError> {
    let blocks = function.code.blocks.as_slice();
    if !blocks.iter().any(|block| may_sink(block)) {
        return Ok(None);
    }
    let entries = entries(alloc, blocks)?;
    if !sets_any(alloc, entries.as_slice(), blocks)? {
        return Ok(None);
    }
    let mut ahead = Ahead {
        sets: nothing(alloc, blocks.len())?,
        entries,
        live: live(alloc, function)?,
    };
    let plans = all_plans(alloc, &mut ahead, blocks)?;
    Ok(Some(plans))
}
