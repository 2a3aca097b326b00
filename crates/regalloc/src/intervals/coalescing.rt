//! Coalescing: registers that are copied to one another and never have values at the same time may have one place, and then the copy is none.
use crate::intervals::demands::{Copying, Demands};
use crate::intervals::live_intervals::{LiveInterval, ranges_of};
use crate::intervals::positions::Range;
use crate::lists::set;
use il_ast::Few;
use std::alloc::{AllocError, Global};
use std::mem;

/// Coalesced registers, which have one place.
#[derive(Drop)]
pub(crate) struct Group {
    pub(crate) members: Few<u32>,

    /// the ranges of all of them in the order of the text, if they are several
    joined: Vec<Range>,
}

impl Group {
    /// No registers.
    pub(crate) fn empty(alloc: Global) -> Group {
        Group {
            members: Few::new(alloc),
            joined: Vec::new(alloc),
        }
    }

    /// One register.
    pub(crate) fn single(alloc: Global, register: u32) -> Result<Group, AllocError> {
        let mut group = Group::empty(alloc);
        group.members.push(register)?;
        Ok(group)
    }

    /// The ranges of its registers in the order of the text, by the live intervals of all registers.
    pub(crate) fn ranges<'a>(&'a self, intervals: &'a [LiveInterval]) -> &'a [Range] {
        match self.members.as_slice() {
            [register] => ranges_of(intervals, *register),
            _ => self.joined.as_slice(),
        }
    }
}

/// All groups, and which of them each register is in. A group whose registers went to another is left empty.
#[derive(Drop)]
pub(crate) struct Groups {
    pub(crate) groups: Vec<Group>,
    pub(crate) of_registers: Vec<usize>,
}

impl Groups {
    /// How many registers the group has.
    fn size(&self, group: usize) -> usize {
        self.groups
            .get(group)
            .map_or(0, |group| group.members.len())
    }

    /// The ranges of the group's registers in the order of the text.
    fn ranges<'a>(&'a self, intervals: &'a [LiveInterval], group: usize) -> &'a [Range] {
        let group = self.groups.get(group);
        group.map_or(&[], |group| group.ranges(intervals))
    }

    /// The two groups that a copy leads between, if they are two.
    fn between(&self, copying: &Copying) -> Option<(usize, usize)> {
        let to = *self.of_registers.get(copying.to as usize)?;
        let from = *self.of_registers.get(copying.from as usize)?;
        if to != from { Some((to, from)) } else { None }
    }
}

/// All ranges of both in order; none where two of them meet.
fn merged(
    alloc: Global,
    left: &[Range],
    right: &[Range],
) -> Result<Option<Vec<Range>>, AllocError> {
    let count = left.len().saturating_add(right.len());
    let mut ranges: Vec<Range> = Vec::with_capacity(alloc, count)?;
    let mut k = 0usize;
    for taken in 0..count {
        let range = match (left.get(k), right.get(taken.saturating_sub(k))) {
            (Some(left), Some(right)) if right.start < left.start => *right,
            (Some(left), _) => {
                k = k.saturating_add(1);
                *left
            }
            (None, Some(right)) => *right,
            (None, None) => break,
        };
        if ranges.last().is_some_and(|last| range.start <= last.end) {
            return Ok(None);
        }
        ranges.push(range)?;
    }
    Ok(Some(ranges))
}

/// Joins the two groups, the smaller to the larger, if no two ranges of them meet. The smaller is left empty.
fn try_join(
    alloc: Global,
    groups: &mut Groups,
    intervals: &[LiveInterval],
    left: usize,
    right: usize,
) -> Result<(), AllocError> {
    let ranges = groups.ranges(intervals, left);
    let Some(ranges) = merged(alloc, ranges, groups.ranges(intervals, right))? else {
        return Ok(());
    };
    let is_less = groups.size(left) < groups.size(right);
    let (large, small) = if is_less {
        (right, left)
    } else {
        (left, right)
    };
    let Some(group) = groups.groups.get_mut(small) else {
        return Ok(());
    };
    let old = mem::replace(group, Group::empty(alloc));
    let Some(group) = groups.groups.get_mut(large) else {
        return Ok(());
    };
    group.joined = ranges;
    for register in old.members.as_slice() {
        group.members.push(*register)?;
        let of_registers = groups.of_registers.as_mut_slice();
        set(of_registers, *register as usize, large);
    }
    Ok(())
}

/// How many ranges are looked through for each register, at most.
const RANGES_A_REGISTER: usize = 256;

/// Joins the groups that copies lead between, those of the last copy first.
fn join_copies(
    alloc: Global,
    groups: &mut Groups,
    intervals: &[LiveInterval],
    copies: &[Copying],
) -> Result<(), AllocError> {
    let mut left = groups.of_registers.len().saturating_mul(RANGES_A_REGISTER);
    for copying in copies.iter().rev() {
        if let Some((to, from)) = groups.between(copying) {
            let ranges = groups.ranges(intervals, to).len();
            let cost = ranges.saturating_add(groups.ranges(intervals, from).len());
            if cost <= left {
                left = left - cost;
                try_join(alloc, groups, intervals, to, from)?;
            }
        }
    }
    Ok(())
}

/// For each pair of registers all copies between them as one, which is done as often as all of them; the one that is done most often is the last.
fn copies_by_pair(alloc: Global, copies: &[Copying]) -> Result<Vec<Copying>, AllocError> {
    let pairs = copies.iter().map(|copying| {
        let low = copying.to.min(copying.from);
        (low, copying.to.max(copying.from), copying.weight)
    });
    let mut pairs: Vec<(u32, u32, u64)> = pairs.collect(alloc)?;
    pairs.sort()?;
    let mut sums: Vec<Copying> = Vec::with_capacity(alloc, pairs.len())?;
    for (to, from, weight) in pairs.iter().copied() {
        match sums.last_mut() {
            Some(last) if last.to == to && last.from == from => {
                last.weight = last.weight.saturating_add(weight);
            }
            _ => sums.push(Copying { weight, to, from })?,
        }
    }
    sums.sort()?;
    Ok(sums)
}

/// The groups, those of the copies that are done most often being joined first.
pub(crate) fn groups_of(
    alloc: Global,
    registers: u32,
    intervals: &[LiveInterval],
    demands: &Demands,
) -> Result<Groups, AllocError> {
    let mut groups = Groups {
        groups: Vec::with_capacity(alloc, registers as usize)?,
        of_registers: Vec::with_capacity(alloc, registers as usize)?,
    };
    for register in 0..registers {
        groups.groups.push(Group::single(alloc, register)?)?;
        groups.of_registers.push(register as usize)?;
    }
    let copies = copies_by_pair(alloc, demands.copies.as_slice())?;
    join_copies(alloc, &mut groups, intervals, copies.as_slice())?;
    Ok(groups)
}
