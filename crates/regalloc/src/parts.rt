//! Parts of live intervals, and which of them one register of the machine may serve together.
//!
//! `nodes` are the parts of a register's live interval: `pieces` cuts it at the ends of blocks and at calls.
//! `regions` joins parts that lead to one another. `exits` says how the value of a region comes and goes, `savings` what the region saves over a spill slot (a `balance`),
//! and `needs` where its register of the machine must be free.

pub(crate) mod balance;
pub(crate) mod exits;
pub(crate) mod needs;
pub(crate) mod nodes;
pub(crate) mod pieces;
pub(crate) mod regions;
pub(crate) mod savings;
