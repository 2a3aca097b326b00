//! Splits the registers that no register of the machine is free for: in parts of their live intervals one may be.
use crate::parts::nodes::Nodes;
use crate::parts::regions::View;
use crate::places::candidates::{Candidate, Ground, is_unplaced};
use crate::places::rooms::Rooms;
use crate::splitting::credit::{Credit, credit_of};
use crate::splitting::outcome::splits_of;
use crate::splitting::reaches::{give_all, split_costs_over_kept};
use crate::splitting::splits::Splits;
use std::alloc::{AllocError, Global};
use vcode::Location;

/// What splitting has come to.
#[derive(Drop)]
pub(crate) struct Splitter {
    /// the parts of the register that is looked at
    nodes: Nodes,

    pub(crate) credit: Credit,
    pub(crate) splits: Splits,
}

impl Splitter {
    /// Nothing is split yet.
    pub(crate) fn new(alloc: Global) -> Splitter {
        Splitter {
            nodes: Nodes::new(alloc),
            credit: Credit::none(alloc),
            splits: Splits::new(alloc),
        }
    }

    /// What is done where registers are split, in the order of the text, and each move once.
    pub(crate) fn finish(self) -> Result<Splits, AllocError> {
        let mut splits = self.splits;
        splits.stays.sort()?;
        splits.begins.sort()?;
        splits.moves.sort()?;
        splits.moves.dedup();
        Ok(splits)
    }
}

/// The register, as it is split.
fn view_of<'a>(ground: Ground<'a>, register: u32) -> View<'a> {
    View {
        facts: ground.facts,
        live: ground.live,
        register,
        accesses: ground.facts.demands.accesses(register),
        demand: ground.facts.demands.of(register),
    }
}

/// Splits the register, if the moves are paid for. Parameters come once: where blocks lead back to the first one, they aren't split.
fn split(
    alloc: Global,
    splitter: &mut Splitter,
    rooms: &mut Rooms,
    ground: Ground,
    register: u32,
) -> Result<(), AllocError> {
    let view = view_of(ground, register);
    if view.demand.is_param && !view.text().sources(0).is_empty() {
        return Ok(());
    }
    splitter.nodes.fill(view)?;
    give_all(alloc, view, &mut splitter.nodes, rooms)?;
    let own = splits_of(alloc, view, &splitter.nodes)?;
    let credit = &mut splitter.credit;
    if own.moves.iter().all(|one| credit.pay(one.point)) {
        splitter.splits.append(&own)?;
    }
    Ok(())
}

/// Splits the registers that the list has slots for, the most urgent first, as far as the ticks of the function pay for it.
pub(crate) fn split_all(
    alloc: Global,
    splitter: &mut Splitter,
    rooms: &mut Rooms,
    list: &[Location],
    ground: Ground,
    candidates: &[Candidate],
) -> Result<(), AllocError> {
    if candidates.is_empty() {
        return Ok(());
    }
    let blocks = ground.function.code.blocks.as_slice();
    splitter.credit = credit_of(alloc, blocks, &ground.facts.text)?;
    for candidate in candidates {
        if let Some(group) = ground.groups.get(candidate.group) {
            for register in group.members.as_slice() {
                if is_unplaced(list, *register) {
                    split(alloc, splitter, rooms, ground, *register)?;
                }
            }
        }
    }
    Ok(())
}

/// Whether registers should stand in one that callees keep, which costs two instructions, the first time that it is used: splitting them would cost more.
pub(crate) fn should_keep(
    alloc: Global,
    splitter: &mut Splitter,
    ground: Ground,
    members: &[u32],
) -> Result<bool, AllocError> {
    let mut cost = 0u64;
    for register in members {
        let view = view_of(ground, *register);
        let more = split_costs_over_kept(alloc, &mut splitter.nodes, view)?;
        cost = cost.saturating_add(more);
    }
    Ok(4 < cost)
}
