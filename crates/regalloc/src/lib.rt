//! # Register allocation by linear scan
//!
//! [`linear_scan::LinearScan`] gives registers of the machine to those virtual registers that are used most often for the length of their live intervals, and
//! shared spill slots to the others. Those it splits: in parts of their live intervals they stand in registers of the machine, and certificates move them there and
//! to their slots.
//!
//! The layers, in the order of the work:
//!
//! | Layer | What it finds |
//! |---|---|
//! | `intervals` | where registers have values (their live intervals), what they are used for (their spill weights), which may have one place (coalescing) |
//! | `places` | which of them gets which register of the machine, or which spill slot |
//! | `parts` | the parts of a live interval, which of them one register of the machine serves together, and what that saves |
//! | `splitting` | which parts of what has a slot stand in a register of the machine, and the moves for that |
//! | `bare_ways` | where values stand that live over a call, on ways on which none is made |
//! | `linear_scan` | the place of each register, by all of these |
//! | `written` | the certificate of the places and the moves |
//!
//! `lists` has what several of them do with lists.
//!
//! The strategy's contract says that a certificate names only places that there are, in registers of the machine and in slots (`specs/Scanned`): `linear_scan` and
//! `written` keep that. The layers above them in the table guess, and have no contracts about code, so no wrong bodies either: that no two registers meet in a place, and
//! that moves are right, is for the checker (`alloc_check`) to see, which stands on `certificates` and knows nothing of this crate.
//!
//! The crate stands on `cfg_live` for liveness, on `flow` for the depths of blocks, on `vcode` for the code and its places, on `smallvec` for the ranges of live
//! intervals, and on `certificates`. The modules of that are here by the same names too: who is handed a strategy (`commands`) or looks into its certificates
//! (`end_to_end`) names them by this crate.
#![tactic(auto)]

mod bare_ways;
mod intervals;
pub mod linear_scan;
mod lists;
mod parts;
mod places;
mod splitting;
mod written;

pub use certificates::{certificate, list, spill_all, strategy};
