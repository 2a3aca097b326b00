//! The rules of a good text, and the measures of a function.
//!
//! `check::check` takes a text's tree exactly where it breaks none of the fourteen rules and passes no
//! limit of one text; a `Checked` carries that as an invariant of its type. What it refuses breaks
//! the rule that is named, at the line of the first place that breaks it, or passes a limit; only
//! want of memory says nothing of the text.
//!
//! The rules are definitions in `specs`, as the line of the first place of the tree that breaks a rule:
//! `Locals` has those of one function, `Rules` those of data and of a text, and the limits. They speak
//! of the tree alone; the code uses tables. `cost` has what a function weighs and how much stack it
//! needs, as `il_ast` defines them.
//!
//! `places` has the place of each label's block, and `arguments` the argument of a phi for a label, for whoever runs or lowers a good text.
//!
//! Each rule goes over a function once, with marks by number; that of phis has a row of predecessors for
//! each label, and tallies that it clears behind itself. The crate stands on `il_ast` for the tree and on
//! `thiserror` for the texts of refusals.
#![tactic(auto)]

pub mod arguments;
pub mod check;
pub mod checked;
pub mod classes;
pub mod cost;
mod definers;
pub mod error;
mod faults;
mod globals;
mod insts;
pub mod label_blocks;
mod labels;
pub mod limits;
mod marks;
mod objects;
mod operands;
mod phis;
mod predecessors;
mod repeats;
pub mod rule;
mod site;
mod sites;
mod tally;
mod temps;

pub use checked::Checked;
pub use error::CheckError;
pub use rule::{BrokenRule, Rule};
