//! Splitting the live intervals that no register of the machine is free for.
//!
//! `splitter` splits registers as far as the moves are paid for, by the `credit` of each point; `reaches` gives the regions of one register registers of the machine, and
//! `outcome` says what that comes to: the `splits`.

pub(crate) mod credit;
pub(crate) mod outcome;
pub(crate) mod reaches;
pub(crate) mod splits;
pub(crate) mod splitter;
