//! Which positions each register of the machine is free at.
use crate::intervals::positions::Range;
use crate::lists::rest;
use crate::parts::balance::Balance;
use crate::places::candidates::Candidate;
use std::alloc::{AllocError, Global};
use vcode::Location;

/// How many registers of the machine there are: the first eight are those of arguments, the last argument's first.
pub(crate) const ROOMS: usize = 23;

/// How many of them come first that callees don't keep.
const SCRATCH: usize = 11;

/// So many positions apart, two values in one register don't keep their lines in order.
const APART: usize = 6;

/// A value that lives at fewer positions is of use where it is made.
const SHORT: usize = 16;

/// The positions at which each register of the machine is taken, one bit each.
#[derive(Drop)]
pub(crate) struct Rooms {
    /// as many words for each register
    taken: Vec<u64>,
    words: usize,

    /// whether some value stands in it
    used: [bool; ROOMS],
}

/// The bits of the k-th word that belong to positions of the range.
fn mask(range: Range, k: usize) -> u64 {
    let low = if range.start / 64 == k {
        u64::MAX << (range.start % 64)
    } else {
        u64::MAX
    };
    let high = if range.end / 64 == k {
        u64::MAX >> (63 - range.end % 64)
    } else {
        u64::MAX
    };
    low & high
}

impl Rooms {
    /// Registers that are free at all positions of so many points.
    pub(crate) fn new(alloc: Global, points: usize) -> Result<Rooms, AllocError> {
        let words = (points / 32).saturating_add(1);
        Ok(Rooms {
            taken: vec![in alloc; 0u64; words.saturating_mul(ROOMS)]?,
            words,
            used: [false; ROOMS],
        })
    }

    /// Where the word of the first 64 positions of the k-th register stands.
    fn first(&self, k: usize) -> usize {
        k.saturating_mul(self.words)
    }

    /// Whether the k-th register is free at all positions of the range.
    fn is_free_at(&self, k: usize, range: Range) -> bool {
        let words = rest(self.taken.as_slice(), self.first(k));
        (range.start / 64..range.end / 64 + 1).all(|w| words
            .get(w)
            .is_some_and(|word| *word & mask(range, w) == 0))
    }

    /// Takes the k-th register at all positions of the range.
    fn take_at(&mut self, k: usize, range: Range) {
        let first = self.first(k);
        for w in range.start / 64..range.end / 64 + 1 {
            if let Some(word) = self.taken.get_mut(first.saturating_add(w)) {
                *word |= mask(range, w);
            }
        }
    }

    /// Whether the k-th register is free at all positions of the ranges.
    pub(crate) fn is_free(&self, k: usize, ranges: &[Range]) -> bool {
        ranges.iter().all(|range| self.is_free_at(k, *range))
    }

    /// Takes the k-th register at all positions of the ranges.
    pub(crate) fn take(&mut self, k: usize, ranges: &[Range]) {
        if k < ROOMS {
            self.used[k] = true;
        }
        for range in ranges {
            self.take_at(k, *range);
        }
    }
}

/// Whether the k-th register may hold a value, also over a call if it must.
fn may_hold(k: usize, over_call: bool) -> bool {
    SCRATCH <= k || !over_call
}

/// The number of the register of the machine that the list has for the register, if callees needn't keep it.
pub(crate) fn scratch_room(list: &[Location], register: u32) -> Option<usize> {
    let Some(Location::Register(number)) = list.get(register as usize) else {
        return None;
    };
    match usize::from(*number) {
        number if number < 8 => Some(number.saturating_add(3)),
        number if 10 <= number => 17usize.checked_sub(number),
        _ => None,
    }
}

/// The register that is wished for, if it is free and callees needn't keep it, or else another such one, those of arguments last.
pub(crate) fn free_scratch(rooms: &Rooms, wish: Option<usize>, ranges: &[Range]) -> Option<usize> {
    wish.filter(|k| *k < SCRATCH && rooms.is_free(*k, ranges))
        .or_else(|| (0..SCRATCH).rev().find(|k| rooms.is_free(*k, ranges)))
}

/// The register that saves moves, by the number of its argument; the one behind those of arguments for what is called.
pub(crate) fn hinted(hint: usize) -> usize {
    7usize.checked_sub(hint).unwrap_or(hint)
}

/// The register that the hint names, if it is free.
fn hinted_room(rooms: &Rooms, hint: Option<u8>, ranges: &[Range]) -> Option<usize> {
    hint.map(|hint| hinted(usize::from(hint)))
        .filter(|k| rooms.is_free(*k, ranges))
}

/// A register that is free.
#[derive(Clone, Copy)]
pub(crate) enum Choice {
    /// it costs nothing
    Free(usize),

    /// it costs the two instructions that save and restore it
    Unused(usize),
}

/// The first register that callees don't keep in which nothing stands close to a short range, of those that few calls want for arguments.
fn far_room(rooms: &Rooms, ranges: &[Range]) -> Option<usize> {
    let [range] = ranges else {
        return None;
    };
    if SHORT <= range.end.saturating_sub(range.start) {
        return None;
    }
    let last = rooms.words.saturating_mul(64).saturating_sub(1);
    let widened = Range {
        start: range.start.saturating_sub(APART),
        end: range.end.saturating_add(APART).min(last),
    };
    (0..SCRATCH).find(|k| (*k < 5 || 7 < *k) && rooms.is_free_at(*k, widened))
}

/// The first register that is free for the ranges and costs nothing, or else the first one that is free.
fn free_room(rooms: &Rooms, over_call: bool, ranges: &[Range]) -> Option<Choice> {
    if !over_call && let Some(k) = far_room(rooms, ranges) {
        return Some(Choice::Free(k));
    }
    let mut unused = None;
    for k in 0..ROOMS {
        if may_hold(k, over_call) && rooms.is_free(k, ranges) {
            if k < SCRATCH || rooms.used[k] {
                return Some(Choice::Free(k));
            }
            unused = unused.or(Some(Choice::Unused(k)));
        }
    }
    unused
}

/// The register for a candidate with these ranges: the one that it would save moves in, or else the first one that is free, one that costs nothing if there is one.
pub(crate) fn room_for_candidate(
    rooms: &Rooms,
    candidate: &Candidate,
    ranges: &[Range],
) -> Option<Choice> {
    match hinted_room(rooms, candidate.hint, ranges) {
        Some(k) if may_hold(k, candidate.over_call) => Some(Choice::Free(k)),
        _ => free_room(rooms, candidate.over_call, ranges),
    }
}

/// Of the registers of arguments by which the value of a part comes or goes the one that saves most, among those that are free.
fn argument_room(rooms: &Rooms, balance: Balance, ranges: &[Range]) -> Option<usize> {
    let mut most = 0u64;
    let mut best = None;
    for argument in 0..8u8 {
        let number = usize::from(argument);
        let through = balance.through(number);
        if most < through
            && 0 < balance.net_in(number)
            && let Some(k) = hinted_room(rooms, Some(argument), ranges)
        {
            most = through;
            best = Some(k);
        }
    }
    best
}

/// The register for a part of a live interval, over no call: one that the value comes or goes in, or another that is free at these positions and saves something.
pub(crate) fn room_for_part(
    rooms: &Rooms,
    hint: Option<u8>,
    balance: Balance,
    ranges: &[Range],
) -> Option<usize> {
    if let Some(k) = argument_room(rooms, balance, ranges) {
        return Some(k);
    }
    if balance.net() == 0 {
        return None;
    }
    if let Some(k) = hinted_room(rooms, hint, ranges) {
        return Some(k);
    }
    match free_room(rooms, false, ranges) {
        Some(Choice::Free(k)) => Some(k),
        Some(Choice::Unused(k)) if 4 < balance.net() => Some(k),
        _ => None,
    }
}
