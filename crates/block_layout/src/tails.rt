//! Blocks with copies of the blocks that they go to. [`copy::thread_jumps`] makes one block of two where the one goes to the other and nothing else leads there, so that passes along blocks see both, and threads jumps: a
//! branch without lines is copied to where jumps to it come from, since there it may be known where it leads. [`copy::duplicate_tails`] also puts copies of short blocks that branch in the place of jumps to them (`specs/Joined`): the test of a loop comes to stand in front of it and at its end, and no jump leads back to it.
//!
//! Which blocks are copied is a guess ([`choice`]). [`copy::apply`] makes the function by any: that all ticks together are few is tested; else the function stays as it is. [`copy::thread_jumps`] leaves out blocks to which nothing leads any more; behind [`copy::duplicate_tails`] the placement of blocks does.

pub mod choice;
pub mod copy;
mod weigh;
