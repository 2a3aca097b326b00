//! # Constant propagation, copy propagation and branch folding
//!
//! Three passes on virtual code that put other operands and jumps into it, and leave the lines that are then of no use to others:
//!
//! - [`constants::propagate::propagate_constants`] carries on what registers hold: numbers and copies, also over the ends of blocks, and within a block sums and comparisons;
//! - [`constants::propagate::fold_branches`] makes jumps of branches whose outcome is known by their block, and reads what is copied;
//! - [`copies::read::propagate_copies`] lets lines read a copy in the place of its source, so that both may have one place.
//!
//! The contracts say that the code is kept, in the words of every pass.
//!
//! The crate stands on `vcode` for code and on `cfg_live` for the registers that lines write.
#![tactic(auto)]

pub mod constants;
pub mod copies;
