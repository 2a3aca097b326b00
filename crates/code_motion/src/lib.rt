//! # Loop-invariant code motion
//!
//! Passes on virtual code. [`hoist::hoist_invariants`] sets computations at the ends of blocks in front of loops, in registers that the function didn't have
//! (`specs/Longer`); value numbering, which goes next, then makes the lines of the loops copies of them. It adds a step to some of them in the loops, which value numbering
//! follows (strength reduction). In front of an address it sets the sum of two registers, for value numbering too. An operation may be done though nobody wants it: one that isn't defined leaves its register unset.
//!
//! Which computations, and where, is a guess ([`choice`]), a [`plan::Plan`]. [`hoist::apply`] makes the function by any plan: what the lines name is tested, and that the
//! ticks of their block pay for them; a block that doesn't pay stays as it is.
//!
//! A second pass, [`later::put_off::put_off_sums`], does a sum of a register and a number behind the last line of its block that reads that register, where it isn't wanted
//! any more then: both may have one place, and no copy is made (`*p++`). Which sums, and how far, is a guess (`later::choice`); what is put off is tested at each line that
//! it goes over, which may name nothing that it writes and write nothing that it reads (`specs/Later`). Until it is done, its register alone may hold something else.
//!
//! The crate stands on `vcode` for the code, and for the guess on `flow` for loops and on `cfg_live` for what lines write.
#![tactic(auto)]

pub mod choice;
pub mod hoist;
pub mod later;
mod longer;
pub mod plan;
