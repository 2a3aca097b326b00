//! Which registers live over the calls of loops.
use crate::hoisting::choice::regions::Regions;
use crate::points::{behind_block, behind_line};
use cfg_live::Live;
use cfg_live::live::live;
use std::alloc::{AllocError, Global};
use vcode::{Block, Line, VFunc};

/// How many registers of the machine a callee keeps.
const KEPT: usize = 12;

/// Of so many calls of a region it is asked what lives over them.
const CALLS: usize = 16;

/// A call, the region that it lies in, and the point behind it.
#[derive(Clone, Copy, PartialEq, Eq, PartialOrd, Ord)]
struct Called {
    region: usize,
    point: usize,

    /// the register that the result goes to, or none of the function
    result: u32,
}

/// What registers of the machine that callees keep are wanted for, in each region.
#[derive(Drop)]
pub(crate) struct Pressure {
    /// by region, how often the registers are named that live over its calls, the most often named first
    over_calls: Vec<Vec<i64>>,
}

impl Pressure {
    /// How often that register is named which would have to leave its place to a value that lives over the calls of a region, besides so many that do already:
    /// 0 where a place is free.
    pub(crate) fn displaced(&self, region: usize, others: usize) -> i64 {
        let place = KEPT.saturating_sub(1).saturating_sub(others);
        match self.over_calls.get(region) {
            Some(counts) if others < KEPT => counts.get(place).copied().unwrap_or(0),
            Some(_) => i64::MAX,
            None => 0,
        }
    }
}

fn push_calls(
    calls: &mut Vec<Called>,
    region: usize,
    first: usize,
    block: &Block<u32>,
) -> Result<(), AllocError> {
    let mut point = first;
    for line in block.lines.as_slice() {
        point = behind_line(point, line);
        if let Line::Call { to, .. } = line {
            calls.push(Called {
                region,
                point,
                result: to.as_ref().map_or(u32::MAX, |to| to.place),
            })?;
        }
    }
    Ok(())
}

/// The calls in loops, in the order of regions.
fn calls_in(
    alloc: Global,
    blocks: &[Block<u32>],
    regions: &Regions,
) -> Result<Vec<Called>, AllocError> {
    let mut calls = Vec::new(alloc);
    let mut point = 0usize;
    for (number, block) in blocks.iter().enumerate() {
        let region = regions.number(number);
        if region != 0 {
            push_calls(&mut calls, region, point, block)?;
        }
        point = behind_block(point, block);
    }
    calls.sort()?;
    Ok(calls)
}

/// Marks those of so many registers that live over a call.
fn mark_living(marks: &mut [bool], live: &Live, call: &Called, registers: u32) {
    for register in 0..registers {
        if register != call.result
            && live.holds(call.point, register)
            && let Some(mark) = marks.get_mut(register as usize)
        {
            *mark = true;
        }
    }
}

/// How often each of the marked registers is named, the most often named first.
fn counts_of(alloc: Global, marks: &[bool], named: &[i64]) -> Result<Vec<i64>, AllocError> {
    let marked = named.iter().zip(marks).filter(|(_, mark)| **mark);
    let mut counts: Vec<i64> = marked.map(|(count, _)| *count).collect(alloc)?;
    counts.sort()?;
    counts.reverse();
    counts.truncate(KEPT);
    Ok(counts)
}

/// How often the registers are named that live over these calls.
fn counts_over(
    alloc: Global,
    live: &Live,
    calls: &[Called],
    registers: u32,
    named: &[i64],
) -> Result<Vec<i64>, AllocError> {
    if calls.is_empty() {
        return Ok(Vec::new(alloc));
    }
    let mut marks = vec![in alloc; false; named.len()]?;
    for call in calls.iter().take(CALLS) {
        mark_living(marks.as_mut_slice(), live, call, registers);
    }
    counts_of(alloc, marks.as_slice(), named)
}

/// What lives over the calls of each region.
pub(crate) fn pressure_of(
    alloc: Global,
    function: &VFunc,
    regions: &Regions,
    named: &[i64],
) -> Result<Pressure, AllocError> {
    let calls = calls_in(alloc, function.code.blocks.as_slice(), regions)?;
    let live = live(alloc, function)?;
    let mut over = Vec::with_capacity(alloc, regions.list.len())?;
    let mut rest = calls.as_slice();
    for region in 0..regions.list.len() {
        let count = rest.iter().take_while(|call| call.region == region).count();
        let (own, others) = rest.split_at(count);
        over.push(counts_over(alloc, &live, own, function.registers, named)?)?;
        rest = others;
    }
    Ok(Pressure { over_calls: over })
}
