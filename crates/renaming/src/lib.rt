//! # Renaming
//!
//! A pass on virtual code. A register that is written in several places holds values that have nothing to do with one another, as where a text uses one temporary twice. [`rename::rename_webs`]
//! gives each of them, with all writes that some reader may see together (a *web*), a register of its own, so that the passes behind see what is written once, and the
//! allocator needn't keep together what isn't.
//!
//! Which values belong together is a guess ([`choice`]), a [`plan::Plan`]. [`rename::apply`] makes the function by any plan: at each line all that is read has to have a name, the register under
//! which the value was written, and at each jump the names with which the blocks begin that it leads to have to hold (`specs/Renamed`); else the plan isn't right, and
//! the function stays as it is.
//!
//! The crate stands on `vcode` for code, on `cfg_live` for what lines write, and for the guess on `flow` for predecessors.
#![tactic(auto)]

mod blocks;
pub mod choice;
mod names;
pub mod plan;
pub mod rename;
