//! Which constants are worth a register.
use crate::hoisting::choice::named::{free_registers, how_often_named};
use crate::hoisting::choice::pressure::{Pressure, pressure_of};
use crate::hoisting::choice::regions::{Region, Regions, find_regions};
use crate::hoisting::choice::saving::where_read;
use crate::hoisting::choice::uses::{Key, Use, may_save, uses_of};
use crate::hoisting::plan::Plan;
use flow::depths::loop_depths;
use flow::graph::{predecessors, successor};
use il_ast::Few;
use std::alloc::{AllocError, Global};
use vcode::{Block, VFunc};

/// More of them would leave too few registers of the machine for what changes in a long function.
const MOST: usize = 6;

/// A function of so many blocks is long.
const LONG: usize = 80;

/// As many may a shorter one have.
const MOST_IN_SHORT: usize = 12;

/// A loop of so many blocks most often goes round so often that it pays for a register that has to be saved.
const LARGE: u32 = 20;

/// A constant that is worth a register. The one that saves most is the last.
#[derive(Clone, Copy, PartialEq, Eq, PartialOrd, Ord)]
struct Choice {
    gain: i64,
    key: Key,
}

/// What it saves to hold a constant in a region, less what it costs to set it in front. Over calls it takes a register that has to be saved: far more is asked.
fn net(one: &Use, region: &Region) -> i64 {
    let price = where_read(&one.key.constant().operand()).saturating_mul(i64::from(region.entries));
    if region.has_calls {
        let part = if region.blocks < LARGE { 4 } else { 2 };
        (one.gain / part).saturating_sub(price).saturating_sub(1)
    } else {
        one.gain.saturating_sub(price)
    }
}

/// The uses that are worth it, with what they save.
fn worthy_uses(
    alloc: Global,
    blocks: &[Block<u32>],
    depths: &[u32],
    regions: &Regions,
) -> Result<Vec<Use>, AllocError> {
    let uses = uses_of(alloc, blocks, depths, regions)?;
    let mut worthy = Vec::new(alloc);
    for one in uses.iter() {
        if let Some(region) = regions.list.get(one.region) {
            let gain = net(one, region);
            if 0 < gain {
                worthy.push(Use { gain, ..*one })?;
            }
        }
    }
    Ok(worthy)
}

/// Each constant of these, in order of what it saves in all regions.
fn choices(alloc: Global, worthy: &[Use]) -> Result<Vec<Choice>, AllocError> {
    let mut choices: Vec<Choice> = Vec::new(alloc);
    for one in worthy {
        match choices.last_mut() {
            Some(last) if last.key == one.key => last.gain = last.gain.saturating_add(one.gain),
            _ => choices.push(Choice {
                gain: one.gain,
                key: one.key,
            })?,
        }
    }
    choices.sort()?;
    Ok(choices)
}

/// What the constants that were chosen so far leave to others.
#[derive(Drop)]
struct Room<'a> {
    regions: &'a Regions,
    pressure: Pressure,

    /// by number, how many constants a region holds
    held: Vec<usize>,
}

impl Room<'_> {
    /// Whether one more constant has a register of the machine in a region, or is worth more than what has it now; so it is held there.
    fn takes(&mut self, one: &Use) -> bool {
        let region = self.regions.list.get(one.region);
        let has_calls = region.is_some_and(|region| region.has_calls);
        let Some(held) = self.held.get_mut(one.region) else {
            return false;
        };
        let takes = !has_calls || self.pressure.displaced(one.region, *held) < one.gain;
        if takes {
            *held = held.saturating_add(1);
        }
        takes
    }
}

/// By number, the regions in which it is worth it to hold the constant.
fn held_regions(
    alloc: Global,
    room: &mut Room<'_>,
    worthy: &[Use],
    key: Key,
) -> Result<Vec<bool>, AllocError> {
    let mut held = vec![in alloc; false; room.held.len()]?;
    for one in worthy {
        if one.key == key
            && room.takes(one)
            && let Some(mark) = held.get_mut(one.region)
        {
            *mark = true;
        }
    }
    Ok(held)
}

fn leads_in(holds: &[bool], to: Option<usize>) -> bool {
    to.is_some_and(|to| holds.get(to) == Some(&true))
}

fn holding(
    alloc: Global,
    blocks: &[Block<u32>],
    regions: &Regions,
    held: &[bool],
) -> Result<Vec<bool>, AllocError> {
    (0..blocks.len())
        .map(|block| held.get(regions.number(block)) == Some(&true))
        .collect(alloc)
}

/// The blocks that lead from elsewhere to one that holds it.
fn setting(alloc: Global, blocks: &[Block<u32>], holds: &[bool]) -> Result<Vec<bool>, AllocError> {
    let sets = blocks.iter().enumerate().map(|(number, block)| {
        !leads_in(holds, Some(number))
            && (leads_in(holds, successor(&block.jump, 0))
                || leads_in(holds, successor(&block.jump, 1)))
    });
    sets.collect(alloc)
}

fn chosen_for(
    alloc: Global,
    blocks: &[Block<u32>],
    room: &mut Room<'_>,
    worthy: &[Use],
    key: Key,
    register: u32,
) -> Result<Plan, AllocError> {
    let held = held_regions(alloc, room, worthy, key)?;
    let holds = holding(alloc, blocks, room.regions, held.as_slice())?;
    let sets = setting(alloc, blocks, holds.as_slice())?;
    Ok(Plan {
        register,
        constant: key.constant(),
        sets,
        holds,
    })
}

/// A constant for each register, as long as there are some that are worth it.
fn chosen_in(
    alloc: Global,
    function: &VFunc,
    room: &mut Room<'_>,
    named: &[i64],
    worthy: &[Use],
) -> Result<Vec<Plan>, AllocError> {
    let blocks = function.code.blocks.as_slice();
    let most = if blocks.len() < LONG {
        MOST_IN_SHORT
    } else {
        MOST
    };
    let choices = choices(alloc, worthy)?;
    let free = free_registers(alloc, function.registers, named, most)?;
    let mut chosen = Vec::new(alloc);
    for (choice, register) in choices.iter().rev().zip(free.iter()) {
        chosen.push(chosen_for(alloc, blocks, room, worthy, choice.key, *register)?)?;
    }
    Ok(chosen)
}

fn chosen_in_loops(
    alloc: Global,
    function: &VFunc,
    predecessors: &[Few<usize>],
    depths: &[u32],
) -> Result<Vec<Plan>, AllocError> {
    let blocks = function.code.blocks.as_slice();
    let regions = find_regions(alloc, blocks, predecessors, depths)?;
    let worthy = worthy_uses(alloc, blocks, depths, &regions)?;
    if worthy.is_empty() {
        return Ok(Vec::new(alloc));
    }
    let named = how_often_named(alloc, function, depths)?;
    let mut room = Room {
        regions: &regions,
        pressure: pressure_of(alloc, function, &regions, named.as_slice())?,
        held: vec![in alloc; 0usize; regions.list.len()]?,
    };
    chosen_in(
        alloc,
        function,
        &mut room,
        named.as_slice(),
        worthy.as_slice(),
    )
}

/// Plans for the constants of the function's loops that save most, each with a register of its own, the best first. They are few, and most often right.
///
/// # Errors
///
/// Only where memory was refused.
pub fn choose_plans(alloc: Global, function: &VFunc) -> Result<Vec<Plan>, AllocError> {
    let blocks = function.code.blocks.as_slice();
    if !may_save(alloc, blocks)? {
        return Ok(Vec::new(alloc));
    }
    let predecessors = predecessors(alloc, blocks)?;
    let depths = loop_depths(alloc, blocks, predecessors.as_slice())?;
    if depths.iter().any(|depth| 0 < *depth) {
        chosen_in_loops(alloc, function, predecessors.as_slice(), depths.as_slice())
    } else {
        Ok(Vec::new(alloc))
    }
}
