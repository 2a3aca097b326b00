//! # Where constants are set
//!
//! Two passes on virtual code, of numbers and global names and the blocks that set them:
//!
//! - [`sinking::sink::sink_constants`] sets registers that hold numbers in the blocks that want them, and not in front of branches that may lead elsewhere;
//! - [`hoisting::constants::hoist_constants`] holds constants that loops read in registers that are set in front of the loops.
//!
//! What each chooses is a guess (`choice`), and what it applies is proved of any plan. The contracts say that the code is kept, in the words of every pass.
//!
//! The crate stands on `vcode` for code, on `cfg_live` for the live registers, and for the guesses on `flow` for what leads to a block and for depths, and on `operation_code` for what numbers cost.
#![tactic(auto)]

pub mod hoisting;
mod points;
pub mod sinking;
