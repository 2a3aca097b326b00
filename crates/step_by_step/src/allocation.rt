//! Certificates: which are chosen for functions, and what is made of functions by them.
use crate::certified::{certificate_of, certificate_text, places_of};
use crate::code_text::function::{located_text, virtual_function};
use alloc_check::accept::{Refused, accept};
use certificates::{SpillAll, Strategy, list};
use cfg_live::live::live;
use regalloc::linear_scan::LinearScan;
use std::alloc::Global;

/// What a certificate makes of a function, or the line `refused`.
pub fn accepted(alloc: Global, text: &str, certificate: &str) -> Option<String> {
    let function = virtual_function(alloc, text)?;
    let certificate = certificate_of(alloc, certificate)?;
    match accept(alloc, &function, &certificate) {
        Ok(made) => located_text(alloc, &made).ok(),
        Err(Refused::No) => String::from_str(alloc, "refused").ok(),
        Err(Refused::Memory) => None,
    }
}

/// A function with each register in its slot.
pub fn spilled(alloc: Global, text: &str) -> Option<String> {
    let function = virtual_function(alloc, text)?;
    let made = alloc_check::spill_all::spill_all(alloc, &function).ok()?;
    located_text(alloc, &made).ok()
}

/// The certificate that a strategy chooses for a function.
fn chosen<S: Strategy>(alloc: Global, strategy: &mut S, text: &str) -> Option<String> {
    let function = virtual_function(alloc, text)?;
    let live = live(alloc, &function).ok()?;
    let certificate = strategy.choose(&function, &live)?;
    certificate_text(alloc, &certificate).ok()
}

/// The certificate that has each register of a function in its slot.
pub fn slotted(alloc: Global, text: &str) -> Option<String> {
    chosen(alloc, &mut SpillAll::new(alloc), text)
}

/// The certificate that linear scan has for a function.
pub fn scanned(alloc: Global, text: &str) -> Option<String> {
    chosen(alloc, &mut LinearScan::new(alloc), text)
}

/// A function in location code, as the compiler makes it: in the places that linear scan has for it, else with each register in its slot.
pub fn allocated(alloc: Global, text: &str) -> Option<String> {
    let function = virtual_function(alloc, text)?;
    let live = live(alloc, &function).ok()?;
    let chosen = LinearScan::new(alloc).choose(&function, &live)?;
    match accept(alloc, &function, &chosen) {
        Ok(placed) => located_text(alloc, &placed).ok(),
        Err(_) => spilled(alloc, text),
    }
}

/// The certificate that has the registers of a function in the places of a list.
pub fn listed(alloc: Global, text: &str, places: &str) -> Option<String> {
    let places = places_of(alloc, places)?;
    let function = virtual_function(alloc, text)?;
    let live = live(alloc, &function).ok()?;
    let certificate = list::certificate_of(alloc, &function, &live, places.as_slice()).ok()?;
    certificate_text(alloc, &certificate).ok()
}
