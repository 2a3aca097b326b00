//! How many certificates of linear scan the checker accepts, and how often the code that they make names slots.
use alloc_check::accept::{Refused, accept};
use certificates::{Certificate, Strategy};
use cfg_live::Live;
use qbec::compile::compile;
use regalloc::linear_scan::LinearScan;
use std::alloc::{AllocError, Global};
use vcode::{Block, Line, Location, Operand, VFunc};

/// Linear scan, with counts of what becomes of its answers.
#[derive(Drop)]
struct Counted {
    alloc: Global,
    scan: LinearScan,

    /// how many functions it was asked for
    functions: u64,

    /// for how many it had no certificate
    unanswered: u64,

    /// how many certificates the checker refused
    refused: u64,

    /// how many copies, loads and stores of accepted code move a value to or from a slot
    slots: u64,
}

fn is_slot(place: Location) -> bool {
    matches!(place, Location::Slot(_))
}

fn reads_slot(operand: Operand<Location>) -> bool {
    matches!(operand, Operand::At(place) if is_slot(place))
}

// How many operands and results of a line stand in slots; those of calls aren't counted.
fn slots_in(line: &Line<Location>) -> usize {
    let in_slots = match line {
        Line::Set { to, value } => [is_slot(*to), reads_slot(*value), false],
        Line::Operate {
            to,
            left,
            right,
            ..
        } => [is_slot(*to), reads_slot(*left), reads_slot(*right)],
        Line::Load { to, at, .. } => [is_slot(*to), reads_slot(at.base), false],
        Line::Store { value, at, .. } => [reads_slot(*value), reads_slot(at.base), false],
        _ => [false; 3],
    };
    in_slots.iter().filter(|is| **is).count()
}

fn slots_of(blocks: &[Block<Location>]) -> u64 {
    let lines = blocks.iter().flat_map(|block| block.lines.as_slice());
    lines.fold(
        0,
        |slots: u64, line| slots.saturating_add(slots_in(line) as u64),
    )
}

impl Counted {
    fn count(&mut self, function: &VFunc, certificate: &Certificate) {
        match accept(self.alloc, function, certificate) {
            Ok(located) => {
                let slots = slots_of(located.code.blocks.as_slice());
                self.slots = self.slots.saturating_add(slots);
            }
            Err(Refused::No) => self.refused = self.refused.saturating_add(1),
            Err(Refused::Memory) => {}
        }
    }
}

impl Strategy for Counted {
    fn choose(&mut self, function: &VFunc, live: &Live) -> Option<Certificate> {
        self.functions = self.functions.saturating_add(1);
        let answer = self.scan.choose(function, live);
        match &answer {
            Some(certificate) => self.count(function, certificate),
            None => self.unanswered = self.unanswered.saturating_add(1),
        }
        answer
    }
}

/// What the checker says of linear scan's answers for the functions of a text.
pub fn accepted(alloc: Global, text: &[u8]) -> Result<String, AllocError> {
    let mut counted = Counted {
        alloc,
        scan: LinearScan::new(alloc),
        functions: 0,
        unanswered: 0,
        refused: 0,
        slots: 0,
    };
    if let Err(error) = compile(alloc, &[text], &mut counted) {
        return format!(in alloc; "{error:?}");
    }
    let Counted {
        functions,
        unanswered,
        refused,
        slots,
        ..
    } = &counted;
    format!(in alloc;
        "{functions} functions, {unanswered} without a certificate, {refused} refused; {slots} operands in slots"
    )
}
