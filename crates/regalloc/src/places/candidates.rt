//! What stands for registers of the machine, and in which order.
use crate::intervals::coalescing::Group;
use crate::intervals::demands::{Demand, Demands};
use crate::intervals::facts::Facts;
use crate::intervals::positions::Range;
use crate::places::slots::Wish;
use cfg_live::Live;
use std::alloc::{AllocError, Global};
use vcode::{Location, VFunc};

/// What registers of the machine are given by.
#[derive(Clone, Copy)]
pub(crate) struct Ground<'a> {
    pub(crate) function: &'a VFunc,

    /// what is known of the function
    pub(crate) facts: &'a Facts,

    /// what is live at each of its points
    pub(crate) live: &'a Live,

    /// the groups that candidates stand for
    pub(crate) groups: &'a [Group],
}

/// A group that may stand in a register of the machine. In the order of candidates the one that is used most often for its length is the last.
#[derive(Clone, Copy, PartialEq, Eq, PartialOrd, Ord)]
pub(crate) struct Candidate {
    priority: u64,
    pub(crate) weight: u64,
    pub(crate) group: usize,

    /// whether it has a value over a call
    pub(crate) over_call: bool,

    /// the register of arguments that saves moves, by the number of its argument
    pub(crate) hint: Option<u8>,
}

/// The candidate for the group of that number.
fn candidate_of(group: &Group, ranges: &[Range], number: usize, demands: &Demands) -> Candidate {
    let mut demand = Demand::none();
    for register in group.members.as_slice() {
        demand = demand.joined(demands.of(*register));
    }
    // how many positions there are in the ranges, or a few less
    let length = ranges.iter().fold(1usize, |length: usize, range| {
        length.saturating_add(range.end.saturating_sub(range.start))
    });
    Candidate {
        priority: demand.weight.saturating_mul(1024) / (length as u64).max(1),
        weight: demand.weight,
        group: number,
        over_call: ranges.iter().any(|range| demands.is_over_call(*range)),
        hint: demand.hint.wanted(),
    }
}

/// Whether the list has a slot for the register, and no register of the machine yet.
pub(crate) fn is_unplaced(list: &[Location], register: u32) -> bool {
    matches!(list.get(register as usize), Some(Location::Slot(_)))
}

/// The groups that have values somewhere, the most urgent first.
pub(crate) fn candidates(
    alloc: Global,
    groups: &[Group],
    facts: &Facts,
) -> Result<Vec<Candidate>, AllocError> {
    let mut candidates = Vec::with_capacity(alloc, groups.len())?;
    for (number, group) in groups.iter().enumerate() {
        let ranges = group.ranges(facts.intervals.as_slice());
        if ranges.len() > 0 {
            let candidate = candidate_of(group, ranges, number, &facts.demands);
            candidates.push(candidate)?;
        }
    }
    if 1 < candidates.len() {
        candidates.sort()?;
        candidates.reverse();
    }
    Ok(candidates)
}

/// Whether some register that has values has no register of the machine yet.
pub(crate) fn is_left_over(list: &[Location], facts: &Facts) -> bool {
    let mut places = list.iter().zip(facts.intervals.iter());
    places.any(|(place, interval)| {
        matches!(place, Location::Slot(_)) && !interval.ranges.is_empty()
    })
}

/// A group for each register that has no register of the machine yet, but for those that have values throughout.
pub(crate) fn singles(
    alloc: Global,
    groups: &[Group],
    list: &[Location],
    facts: &Facts,
) -> Result<Vec<Group>, AllocError> {
    let mut singles = Vec::new(alloc);
    for group in groups {
        for register in group.members.as_slice() {
            if is_unplaced(list, *register) && !facts.starts.is_throughout(*register) {
                singles.push(Group::single(alloc, *register)?)?;
            }
        }
    }
    Ok(singles)
}

/// What the registers that have no register of the machine yet are used for; none where all have one.
fn left_over(list: &[Location], demands: &Demands, members: &[u32]) -> Option<Demand> {
    members
        .iter()
        .filter(|register| is_unplaced(list, **register))
        .map(|register| demands.of(*register))
        .reduce(|all, demand| all.joined(demand))
}

/// The groups of which some register has no register of the machine.
pub(crate) fn wishes(
    alloc: Global,
    groups: &[Group],
    list: &[Location],
    facts: &Facts,
) -> Result<Vec<Wish>, AllocError> {
    let mut wishes = Vec::new(alloc);
    for (number, group) in groups.iter().enumerate() {
        if let Some(demand) = left_over(list, &facts.demands, group.members.as_slice()) {
            wishes.push(Wish {
                group: number,
                weight: demand.weight,
                is_param: demand.is_param,
            })?;
        }
    }
    Ok(wishes)
}
