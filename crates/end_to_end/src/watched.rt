//! Linear scan, watched.
use alloc_check::accept::accept;
use cfg_live::Live;
use regalloc::certificate::Certificate;
use regalloc::linear_scan::LinearScan;
use regalloc::strategy::Strategy;
use std::alloc::Global;
use vcode::{Location, VFunc};

/// Linear scan, which counts how often it is asked, how many of its answers are accepted, their moves, and how often their points name a register of the machine.
#[derive(Drop)]
pub struct Watched {
    alloc: Global,
    scan: LinearScan,
    pub asked: u64,
    pub accepted: u64,
    pub moves: u64,
    pub named: u64,
}

impl Watched {
    pub fn new(alloc: Global) -> Watched {
        Watched {
            alloc,
            scan: LinearScan::new(alloc),
            asked: 0,
            accepted: 0,
            moves: 0,
            named: 0,
        }
    }
}

fn move_count(certificate: &Certificate) -> u64 {
    let moves = certificate.moves.as_slice().iter();
    moves.fold(
        0,
        |count: u64, moves| count.saturating_add(moves.len() as u64),
    )
}

fn named_count(certificate: &Certificate) -> u64 {
    let places = certificate
        .places
        .as_slice()
        .iter()
        .flat_map(|places| places.as_slice());
    places
        .filter(|is| matches!(is.place, Location::Register(_)))
        .fold(0, |count: u64, _| count.saturating_add(1))
}

impl Strategy for Watched {
    fn choose(&mut self, function: &VFunc, live: &Live) -> Option<Certificate> {
        self.asked = self.asked.saturating_add(1);
        let certificate = self.scan.choose(function, live)?;
        self.moves = self.moves.saturating_add(move_count(&certificate));
        self.named = self.named.saturating_add(named_count(&certificate));
        if accept(self.alloc, function, &certificate).is_ok() {
            self.accepted = self.accepted.saturating_add(1);
        }
        Some(certificate)
    }
}
