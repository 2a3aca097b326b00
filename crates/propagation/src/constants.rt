//! A pass on virtual code. [`propagate::propagate_constants`] carries what is known of registers along each block: that one holds what another or a number is, or what a
//! comparison gives. An operand that is a known copy becomes what it is a copy of, where that is a register or fits an immediate; a branch that compares a
//! known result of a comparison with 0 becomes a branch on that comparison, where the ticks of the block pay for it, and one that compares two numbers
//! becomes a jump. An operation on two numbers becomes the number that it gives, where that costs no more; a multiplication, an unsigned division or a remainder by
//! a power of two becomes a shift or a mask (`specs/FactTable`). Lines that are then of no use are for another pass to take out.
//!
//! A fact is of the register that is written, so there is one for each register at most. It counts as long as no register that it names was written since, nor
//! memory, where it asks that (a comparison may be of pointers). The table has times for that, so that each line takes one step (`specs/FactTable`).
//!
//! That a register holds a number, or what another does, is carried across blocks too: what is claimed where each block begins
//! (`specs/Forwarded`) is a guess (`entries`, by a `walk` along the blocks), at most 128 claims a block. Where a block ends, a test finds each claim of the blocks to
//! which it may lead among what is known; if one isn't, the function is made anew with no claims. So no proof rests on the guess.
//!
//! The contract says that the code is kept, in the words of every pass. Each line and jump is what it was, or what is known makes it, by all facts that are claimed where its
//! block begins or that the lines before it make known, and none of these lines makes false (`specs/Forwarded`). So how much is put is a choice: behind the last
//! passes, [`propagate::fold_branches`] makes jumps of branches whose outcome is known and reads what is copied, and puts no number into a line.

mod claim;
mod entries;
pub mod fact;
mod look;
pub mod propagate;
mod replace;
pub mod strength_reduction;
mod table;
mod walk;
