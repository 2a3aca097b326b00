//! Slots that are shared by groups that never have values at the same time.
use crate::intervals::coalescing::Group;
use crate::intervals::live_intervals::LiveInterval;
use crate::intervals::positions::Range;
use crate::lists::set;
use std::alloc::{AllocError, Global};

/// A group that wants a slot.
#[derive(Clone, Copy)]
pub(crate) struct Wish {
    pub(crate) group: usize,
    pub(crate) weight: u64,

    /// whether a parameter is among its registers: its slot must have a low number
    pub(crate) is_param: bool,
}

/// A group's slot is taken where its first range starts, and free again behind its last one. What is free at a position comes before what is taken there.
#[derive(Clone, Copy, PartialEq, Eq, PartialOrd, Ord)]
struct Event {
    at: usize,
    takes: bool,
    wish: usize,
}

/// A slot with all that stands in it. The one with the largest key gets the lowest number.
#[derive(Clone, Copy, PartialEq, Eq, PartialOrd, Ord)]
struct Shared {
    has_param: bool,
    weight: u64,
    slot: usize,
}

/// The events of all wishes, in order.
fn events_of(
    alloc: Global,
    groups: &[Group],
    intervals: &[LiveInterval],
    wishes: &[Wish],
) -> Result<Vec<Event>, AllocError> {
    let mut events = Vec::with_capacity(alloc, wishes.len().saturating_mul(2))?;
    for (wish, wanted) in wishes.iter().enumerate() {
        if let Some(group) = groups.get(wanted.group)
            && let Some(first) = group.ranges(intervals).first()
            && let Some(last) = group.ranges(intervals).last()
        {
            events.push(Event {
                at: first.start,
                takes: true,
                wish,
            })?;
            events.push(Event {
                at: last.end.saturating_add(1),
                takes: false,
                wish,
            })?;
        }
    }
    events.sort()?;
    Ok(events)
}

/// The slots so far.
#[derive(Drop)]
struct Sharing {
    shared: Vec<Shared>,

    /// those in which nothing stands at the event
    free: Vec<usize>,
}

/// Takes a slot that is free, or one more, for the wish.
fn take(sharing: &mut Sharing, wish: Wish) -> Result<usize, AllocError> {
    let slot = match sharing.free.pop() {
        Some(slot) => slot,
        None => {
            let slot = sharing.shared.len();
            sharing.shared.push(Shared {
                has_param: false,
                weight: 0,
                slot,
            })?;
            slot
        }
    };
    if let Some(shared) = sharing.shared.get_mut(slot) {
        shared.weight = shared.weight.saturating_add(wish.weight);
        shared.has_param = shared.has_param || wish.is_param;
    }
    Ok(slot)
}

/// Gives the slot of each wish the number that it has among all in their order: those of parameters first, the busiest first.
fn number_all(alloc: Global, all: &[Shared], slots: &mut [usize]) -> Result<(), AllocError> {
    let mut numbers = vec![in alloc; 0usize; all.len()]?;
    for (number, shared) in all.iter().rev().enumerate() {
        set(numbers.as_mut_slice(), shared.slot, number);
    }
    for slot in slots.iter_mut() {
        *slot = numbers.get(*slot).copied().unwrap_or(0);
    }
    Ok(())
}

/// A slot for each wish, in order. Groups that have values at the same time have different ones.
pub(crate) fn shared_slots(
    alloc: Global,
    groups: &[Group],
    intervals: &[LiveInterval],
    wishes: &[Wish],
) -> Result<Vec<usize>, AllocError> {
    let mut slots = vec![in alloc; 0usize; wishes.len()]?;
    let mut sharing = Sharing {
        shared: Vec::new(alloc),
        free: Vec::new(alloc),
    };
    let events = events_of(alloc, groups, intervals, wishes)?;
    for event in events.iter() {
        if let Some(slot) = slots.get_mut(event.wish)
            && let Some(wish) = wishes.get(event.wish)
        {
            if event.takes {
                *slot = take(&mut sharing, *wish)?;
            } else {
                sharing.free.push(*slot)?;
            }
        }
    }
    sharing.shared.sort()?;
    number_all(alloc, sharing.shared.as_slice(), slots.as_mut_slice())?;
    Ok(slots)
}
