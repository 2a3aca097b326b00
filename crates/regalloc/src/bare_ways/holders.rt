//! Registers of the machine for what has a value in front of all calls.
use crate::bare_ways::fronts::Fronts;
use crate::intervals::live_intervals::ranges_of;
use crate::intervals::positions::Range;
use crate::lists::set;
use crate::places::candidates::Ground;
use crate::places::rooms::{Rooms, free_scratch, hinted, scratch_room};
use cfg_live::uses::line_writes;
use std::alloc::{AllocError, Global};
use vcode::{Block, Location};

/// More ranges of a register aren't looked at.
const MOST_RANGES: usize = 64;

/// The registers that have values in front of all calls, and where.
#[derive(Drop)]
pub(crate) struct Holders {
    /// each once, the parameters first
    registers: Vec<u32>,

    /// of each register whether it is among them
    is_found: Vec<bool>,

    /// for each register the one of the machine that it has there, where its own place is in a frame
    rooms: Vec<Option<usize>>,
}

impl Holders {
    /// The register of the machine that the register has in front of all calls, if its own place is in a frame.
    pub(crate) fn room(&self, register: u32) -> Option<usize> {
        self.rooms.get(register as usize).copied().flatten()
    }
}

fn find(holders: &mut Holders, register: u32) -> Result<(), AllocError> {
    if let Some(found) = holders.is_found.get_mut(register as usize)
        && !*found
    {
        *found = true;
        holders.registers.push(register)?;
    }
    Ok(())
}

/// Finds the parameters, and what is live where the blocks in front of all calls begin, and what they write.
fn found(alloc: Global, ground: Ground, fronts: &Fronts) -> Result<Holders, AllocError> {
    let registers = ground.function.registers as usize;
    let mut holders = Holders {
        registers: Vec::new(alloc),
        is_found: vec![in alloc; false; registers]?,
        rooms: vec![in alloc; None; registers]?,
    };
    for param in ground.function.code.params.as_slice() {
        find(&mut holders, param.place)?;
    }
    for number in fronts.inside.iter() {
        for start in ground.facts.starts.of(*number) {
            find(&mut holders, start.register)?;
        }
        if let Some(block) = ground.function.code.blocks.as_slice().get(*number) {
            for line in block.lines.as_slice() {
                if let Some(register) = line_writes(line) {
                    find(&mut holders, register)?;
                }
            }
        }
    }
    Ok(holders)
}

/// What is looked at, with room for the ranges of one register.
#[derive(Drop)]
struct Look<'a> {
    list: &'a [Location],
    ground: Ground<'a>,
    fronts: &'a Fronts,
    ranges: Vec<Range>,
}

/// Finds where the register has a value in the zones; false where that takes too long.
fn find_ranges(look: &mut Look, register: u32) -> Result<bool, AllocError> {
    let facts = look.ground.facts;
    let all = ranges_of(facts.intervals.as_slice(), register);
    look.ranges.clear();
    if MOST_RANGES < all.len() || facts.starts.is_throughout(register) {
        return Ok(false);
    }
    for range in all {
        for zone in look.fronts.zones.iter() {
            let start = range.start.max(zone.start);
            let end = range.end.min(zone.end);
            if start <= end {
                look.ranges.push(Range { start, end })?;
            }
        }
    }
    Ok(true)
}

/// Takes the own places of registers that aren't in a frame; false where that takes too long.
fn stay_all(rooms: &mut Rooms, holders: &Holders, look: &mut Look) -> Result<bool, AllocError> {
    for register in holders.registers.iter() {
        if let Some(room) = scratch_room(look.list, *register) {
            if !find_ranges(look, *register)? {
                return Ok(false);
            }
            rooms.take(room, look.ranges.as_slice());
        }
    }
    Ok(true)
}

/// The register of the machine in which the parameter comes.
fn comes_in(ground: Ground, register: u32) -> Option<usize> {
    let mut params = ground.function.code.params.as_slice().iter().take(8);
    let argument = params.position(|param| param.place == register)?;
    Some(hinted(argument))
}

/// Gives the register one of the machine that callees needn't keep; false where none is free.
fn hold(
    rooms: &mut Rooms,
    holders: &mut Holders,
    look: &mut Look,
    register: u32,
) -> Result<bool, AllocError> {
    if !find_ranges(look, register)? {
        return Ok(false);
    }
    let wish = comes_in(look.ground, register);
    let ranges = look.ranges.as_slice();
    let Some(room) = free_scratch(rooms, wish, ranges) else {
        return Ok(false);
    };
    rooms.take(room, ranges);
    set(holders.rooms.as_mut_slice(), register as usize, Some(room));
    Ok(true)
}

/// Gives registers of the machine to all whose own place is in a frame; says whether each has one.
fn hold_all(rooms: &mut Rooms, holders: &mut Holders, look: &mut Look) -> Result<bool, AllocError> {
    for number in 0..holders.registers.len() {
        if let Some(register) = holders.registers.get(number).copied()
            && scratch_room(look.list, register).is_none()
            && !hold(rooms, holders, look, register)?
        {
            return Ok(false);
        }
    }
    Ok(true)
}

/// Registers of the machine for what has a value in front of all calls and its own place in a frame; none where there is nothing of that, or not enough for all.
pub(crate) fn holders_of(
    alloc: Global,
    list: &[Location],
    ground: Ground,
    fronts: &Fronts,
) -> Result<Option<Holders>, AllocError> {
    let mut holders = found(alloc, ground, fronts)?;
    let mut registers = holders.registers.iter();
    if registers.all(|register| scratch_room(list, *register).is_some()) {
        return Ok(None);
    }
    let mut rooms = Rooms::new(alloc, ground.facts.text.points())?;
    let mut look = Look {
        list,
        ground,
        fronts,
        ranges: Vec::new(alloc),
    };
    if stay_all(&mut rooms, &holders, &mut look)?
        && hold_all(&mut rooms, &mut holders, &mut look)?
    {
        Ok(Some(holders))
    } else {
        Ok(None)
    }
}
