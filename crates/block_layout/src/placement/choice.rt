//! An order of blocks in which jumps that run often lead to the next block: a guess that nothing proved rests on.
//!
//! Blocks are joined to chains, each before the one that it leads to, and those first that lie in the most loops. So a loop that tests at its head comes to stand with the
//! head behind its last block, and takes one branch for each time round.

pub mod chains;
