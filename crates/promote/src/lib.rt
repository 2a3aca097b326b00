//! # Locals out of memory
//!
//! Front ends put each local variable into a block of memory made by `alloc`, and load and store it there. `promote::promote` takes such variables into the
//! temporaries that held their addresses, instruction for instruction: a store becomes a copy or an extension into the temporary, a load one out of it, and the
//! `alloc` a copy of 0, since no block of memory is made. So temporaries, weights and turns are the same, and a call needs no more stack; blocks that are still
//! made have other numbers.
//!
//! A temporary is promoted where nothing but `alloc` assigns it, every other mention of it is the address of a load or store of one and the same number of bytes,
//! and the text mentions it first at its `alloc` (`specs/Uses`). What the function becomes is in `specs/Uses`.
//!
//! The laws stand in `laws`: a function keeps the rules and limits that it kept, weighs as much and needs no more stack (`specs/Laws`); and a program whose
//! functions are promoted has the output, the end and the turns that it had, wherever it didn't become undefined or run out of stack (`specs/Programs`). In the
//! proof the memory of the second program is that of the first without the blocks of promoted temporaries, and pointers to the others have their numbers there
//! (`proofs/Hiding`); the temporaries of an activation stand side by side (`proofs/Sides`).
//!
//! The crate stands on `il_ast` for functions and their meaning, and on `il_types` for the rules that they keep.
#![tactic(auto)]

mod copying;
pub mod laws;
pub mod made;
pub mod mention;
mod mentions;
pub mod promote;
mod rewriting;
pub mod standing;
