//! How much of the stack runs use, by the interpreter.
use il_interp::pieces::{Running, begin_to_run};
use il_interp::trace::Place;
use il_types::cost::capped_need;
use obj_link::Linked;
use obj_link::linking::resolve::resolve;
use qbec::texts::checked_texts;
use std::alloc::{AllocError, Global};

/// So many turns of a run are looked at.
const TURNS: u64 = 20_000;

fn need_at(needs: &[u64], place: Option<Place>) -> u64 {
    place.map_or(0, |place| needs.get(place.function).copied().unwrap_or(0))
}

/// What the activations need that are there.
fn used(running: &Running<'_>, needs: &[u64]) -> u64 {
    let mut sum = need_at(needs, running.place());
    for number in 0..running.callers() {
        sum = sum.saturating_add(need_at(needs, running.caller(number)));
    }
    sum
}

fn greatest_of(alloc: Global, linked: &Linked<'_>) -> Result<u64, AllocError> {
    let functions = linked.functions.as_slice().iter();
    let needs: Vec<u64> = functions
        .map(|function| capped_need(function.item))
        .collect(alloc)?;
    let Ok(Ok(mut running)) = begin_to_run(alloc, linked, &[]) else {
        return Ok(0);
    };
    running.watch(alloc, 0);
    let mut greatest = used(&running, needs.as_slice());
    for _done in 0..TURNS {
        if running.go_on(alloc, 1)?.is_some() {
            break;
        }
        greatest = greatest.max(used(&running, needs.as_slice()));
    }
    Ok(greatest)
}

/// The greatest use of the stack in the first turns of a run without argument words, in bytes: 0 where the texts are no program.
pub fn greatest_use(alloc: Global, texts: &[&[u8]]) -> Result<u64, AllocError> {
    let Ok(checked) = checked_texts(alloc, texts) else {
        return Ok(0);
    };
    match resolve(alloc, checked.as_slice()) {
        Ok(linked) => greatest_of(alloc, &linked),
        Err(_) => Ok(0),
    }
}

/// The bound that `qbec stack` shows in its last line, if there is one.
pub fn bound_shown(output: &str) -> Option<u64> {
    let (_, last) = output.split_once("\nat most ")?;
    let (bytes, _) = last.split_once(' ')?;
    bytes.parse::<u64>().ok()
}
