//! # The layout of blocks
//!
//! Three passes on virtual code that touch blocks as wholes and no line in them:
//!
//! - [`tails::copy::thread_jumps`] makes one block of two that follow one another, and leads jumps past branches whose way may be known;
//! - [`tails::copy::duplicate_tails`] puts copies of short blocks that branch in the place of jumps to them;
//! - [`placement::order::place_blocks`] puts the blocks in another order, and leaves out those to which nothing leads.
//!
//! What each chooses is a guess (`choice`), and what it applies is proved of any plan. The contracts say that the code is kept, in the words of every pass.
//!
//! The crate stands on `vcode` for the code, and for the guesses on `flow` for where jumps lead and for the depths of blocks.
#![tactic(auto)]

pub mod placement;
pub mod tails;
