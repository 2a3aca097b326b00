//! # Value numbering
//!
//! A pass on virtual code. [`reuse::reuse_values`] walks over each block with what registers are known to hold: what another does, what an operation on registers and numbers gives, what a load
//! gave (`specs/Known`). A line that computes what a register holds already becomes a copy of that register (`specs/Reused`). A sum of three, of longs or of words, is added in another order where the sum of two of them is known (`specs/Reused`), as `code_motion` sets it in front of a loop; and a number last where the sum of the two registers is known, so that it becomes the offset of an address. A block whose ticks wouldn't pay for its new lines gets those alone that cost no more. An extension by zeros that is shifted to the left is shifted back by less (`specs/Reused`). An extension of what is extended so already is a copy, and one of what was loaded is another load (`specs/Extensions`). A store of a value that was masked or extended, no wider than that left it, stores what it was made of (`specs/Reused`). A fact stays until a register that it names is written, or, if it asks memory, memory
//! is changed.
//!
//! What is linear in a register stays known where that register grows by a number, or the one that holds it (`specs/Steps`): with another offset. So a register that `code_motion` adds to, beside a
//! counter, is known to hold the sum of a base and a product of the counter. A word grows by one as a long does where a jump says that it is less than another word, and becomes one less as a long does where it is more (`ways`). Which registers never hold anything but whole words, their marks say (`sign_extensions`).
//!
//! What is known where a block begins is claimed by a guess (`claims`): what is known at the end of each block that leads there. At each jump the walk tests that what is claimed of the blocks ahead is known; where
//! it isn't, the function is done without claims. So no proof rests on the guess.
//!
//! At most 64 facts are known at a time, so that it takes time as the text is long.
//!
//! The crate stands on `vcode` for the code, on `il_ast` and `rv_isa` for the operations, on `sign_extensions` for marks of registers that hold whole words, and for the guess on `flow` for where jumps lead.
#![tactic(auto)]

mod claims;
mod extensions;
mod fact;
mod known;
mod lines;
mod narrow;
mod regroup;
mod repeats;
pub mod reuse;
mod same;
mod shifts;
mod steps;
mod ways;
