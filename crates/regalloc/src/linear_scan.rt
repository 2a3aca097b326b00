//! Linear scan: registers of the machine for the virtual registers that are used most often for their length, and shared slots for the others (after Poletto
//! and Sarkar, 1999, and Chow and Hennessy, 1990).
ghost use Rattle.std.specs.Prelude.{◌≡◌, ◌<◌, true, length, IfOk, IfSome};
ghost use Rattle.std.specs.List.{list_all};
ghost use Rattle.vcode.specs.Prelude.{is_place};
ghost use Rattle.regalloc.specs.Scanned.{IsScanned};

use crate::bare_ways::keep_bare;
use crate::intervals::coalescing::{Group, groups_of};
use crate::intervals::facts::facts_of;
use crate::places::candidates::{
    Candidate, Ground, candidates, is_left_over, is_unplaced, singles, wishes,
};
use crate::places::rooms::{Choice, ROOMS, Rooms, room_for_candidate};
use crate::places::slots::shared_slots;
use crate::splitting::splits::Splits;
use crate::splitting::splitter::{Splitter, should_keep, split_all};
use crate::written::written;
use certificates::spill_all::slots;
use certificates::{Certificate, Strategy};
use cfg_live::Live;
use std::alloc::{AllocError, Global};
use vcode::{Location, VFunc};

/// Answers for each register one of x5 to x27 or a slot, or several of them one after another, with moves where it changes its place; no places where memory is
/// refused.
#[derive(Drop)]
pub struct LinearScan {
    alloc: Global,
}

impl LinearScan {
    /// The strategy, with the memory that it is to take.
    pub fn new(alloc: Global) -> LinearScan {
        LinearScan { alloc }
    }
}

/// The live registers that certificates name where blocks begin, for each line and jump, at most. What is live at more starts of blocks than that allows is taken
/// to have a value throughout, and is named once.
const LIVE_A_LINE: usize = 32;

/// The k-th register of the machine from x5 to x27. Those come first that callees need not keep, and of these x17 to x10.
pub(crate) fn machine_register(registers: u32, k: u8) -> Location
    requires { k < 23 }
    ensures { is_place registers result ≡ true }
{
    Location::Register(if k < 8 {
        17 - k
    } else if k < 13 {
        k - 3
    } else {
        k + 5
    })
}

/// Puts the register into the place.
fn set(list: &mut [Location], registers: u32, register: u32, place: Location)
    requires place { is_place registers place ≡ true }
    requires places { list_all (is_place registers) list.old ≡ true }
    ensures places { list_all (is_place registers) list.new ≡ true }
    ensures long { length list.new ≡ length list.old }
{
    if (register as usize) < list.len() {
        list[register as usize] = place;
    }
}

/// Puts those registers into the place that have no register of the machine yet.
fn stand(list: &mut [Location], registers: u32, members: &[u32], place: Location)
    requires place { is_place registers place ≡ true }
    requires places { list_all (is_place registers) list.old ≡ true }
    ensures places { list_all (is_place registers) list.new ≡ true }
    ensures long { length list.new ≡ length list.old }
{
    for register in members {
        if is_unplaced(list, *register) {
            set(list, registers, *register, place);
        }
    }
}

/// The register of the machine for a candidate, by its number among the rooms; none where splitting it costs less. What has a value throughout isn't split.
fn choice(
    alloc: Global,
    rooms: &Rooms,
    splitter: &mut Splitter,
    ground: Ground,
    candidate: &Candidate,
    group: &Group,
) -> Result<Option<usize>, AllocError> {
    let ranges = group.ranges(ground.facts.intervals.as_slice());
    match room_for_candidate(rooms, candidate, ranges) {
        Some(Choice::Free(k)) => Ok(Some(k)),
        Some(Choice::Unused(k)) if 4 < candidate.weight => {
            let members = group.members.as_slice();
            let starts = &ground.facts.starts;
            let is_whole = members
                .iter()
                .any(|register| starts.is_throughout(*register));
            let is_kept = is_whole || should_keep(alloc, splitter, ground, members)?;
            Ok(is_kept.then_some(k))
        }
        _ => Ok(None),
    }
}

/// Gives registers of the machine to the groups that one is chosen for, the most urgent first; answers all groups in this order.
fn place_groups(
    alloc: Global,
    list: &mut [Location],
    registers: u32,
    rooms: &mut Rooms,
    splitter: &mut Splitter,
    ground: Ground,
) -> Result<Vec<Candidate>, AllocError>
    requires { list_all (is_place registers) list.old ≡ true }
    ensures places { list_all (is_place registers) list.new ≡ true }
    ensures long { length list.new ≡ length list.old }
{
    let candidates = candidates(alloc, ground.groups, ground.facts)?;
    for candidate in candidates.iter() {
        if let Some(group) = ground.groups.get(candidate.group)
            && let Some(k) = choice(alloc, rooms, splitter, ground, candidate, group)?
            && k < ROOMS
        {
            rooms.take(k, group.ranges(ground.facts.intervals.as_slice()));
            let place = machine_register(registers, k as u8);
            stand(list, registers, group.members.as_slice(), place);
        }
    }
    Ok(candidates)
}

/// Gives slots to what has no register of the machine.
fn place_in_slots(
    alloc: Global,
    list: &mut [Location],
    registers: u32,
    ground: Ground,
) -> Result<(), AllocError>
    requires { list_all (is_place registers) list.old ≡ true }
    ensures places { list_all (is_place registers) list.new ≡ true }
    ensures long { length list.new ≡ length list.old }
{
    let wishes = wishes(alloc, ground.groups, list, ground.facts)?;
    let intervals = ground.facts.intervals.as_slice();
    let slots = shared_slots(alloc, ground.groups, intervals, wishes.as_slice())?;
    for (wish, slot) in wishes.iter().zip(slots.iter()) {
        if let Some(group) = ground.groups.get(wish.group)
            && *slot < registers as usize
        {
            let place = Location::Slot(*slot as u32);
            stand(list, registers, group.members.as_slice(), place);
        }
    }
    Ok(())
}

/// Gives registers of the machine to groups, then to single registers of those that got none, and slots to what is left, which is split where it can be; answers what is done
/// for that.
fn place_and_split(
    alloc: Global,
    list: &mut [Location],
    registers: u32,
    ground: Ground,
) -> Result<Splits, AllocError>
    requires { list_all (is_place registers) list.old ≡ true }
    ensures places { list_all (is_place registers) list.new ≡ true }
    ensures long { length list.new ≡ length list.old }
{
    let mut rooms = Rooms::new(alloc, ground.facts.text.points())?;
    let mut splitter = Splitter::new(alloc);
    place_groups(alloc, list, registers, &mut rooms, &mut splitter, ground)?;
    if is_left_over(list, ground.facts) {
        let singles = singles(alloc, ground.groups, list, ground.facts)?;
        let single = Ground {
            groups: singles.as_slice(),
            ..ground
        };
        let order = place_groups(alloc, list, registers, &mut rooms, &mut splitter, single)?;
        place_in_slots(alloc, list, registers, ground)?;
        split_all(
            alloc,
            &mut splitter,
            &mut rooms,
            list,
            single,
            order.as_slice(),
        )?;
    }
    keep_bare(alloc, &mut splitter, list, ground)?;
    splitter.finish()
}

/// The certificate that linear scan has for the function.
///
/// # Errors
///
/// Only where memory was refused.
#[tactic(auto, using(crate::proofs::Standing::slots_stand))]
pub fn scanned(alloc: Global, function: &VFunc, live: &Live) -> Result<Certificate, AllocError>
    ensures { IfOk result (λ c. IsScanned function.now.registers c) }
{
    let facts = facts_of(alloc, function, live, LIVE_A_LINE)?;
    let intervals = facts.intervals.as_slice();
    let groups = groups_of(alloc, function.registers, intervals, &facts.demands)?;
    let ground = Ground {
        function,
        facts: &facts,
        live,
        groups: groups.groups.as_slice(),
    };
    let registers = function.registers;
    let mut list = slots(alloc, registers)?;
    let splits = place_and_split(alloc, list.as_mut_slice(), registers, ground)?;
    written(alloc, function, &facts, list.as_slice(), &splits)
}

impl Strategy for LinearScan {
    fn choose(&mut self, function: &VFunc, live: &Live) -> Option<Certificate>
        ensures { IfSome result (λ c. IsScanned function.now.registers c) }
    {
        scanned(self.alloc, function, live).ok()
    }
}
