//! A pass on virtual code. Behind a line that copies a register into another, both hold the same until one of them is written.
//! [`read::propagate_copies`] lets the lines in between, and the block's jump, read the copy in place of its source. So the source is often used no more behind the
//! copy, both may have one place, and the copy is no instruction.
//!
//! What is known is known within a block: each begins with no copies, and at most 16 are known at a time (`specs/Copied`), so that the pass takes time as the
//! text is long.
//!
//! The contract says that the code is kept, in the words of every pass, and which code it becomes.

mod known;
pub mod read;
mod replace;
mod sources;
