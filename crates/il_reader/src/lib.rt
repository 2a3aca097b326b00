//! From the bytes of a text to its tree.
//!
//! `specs/Reads.antt` says which tree a text has: `Reads bytes text` is the grammar of the language as a
//! relation, one definition for each rule (`Grammar`, `Reads`), in a notation in which they read like
//! the grammar. A rule relates the state before, what is read, and the state after (`Rules`); the state
//! has the bytes that are left, the line, and the names so far (`State`). Names are numbered in order of
//! first appearance. A block without a jump, not the last of its function, stands for one that goes to
//! the next.
//!
//! # What it promises
//!
//! `read` answers just that, both ways: a tree that it answers is one that the text has, and where the
//! text has a tree it answers that one, unless memory is refused. A refusal names a line of the text.
//! A text has at most one tree (`laws`). It goes through the bytes once, and looks at no more than the
//! next token.
//!
//! # How
//!
//! `specs/Steps.antt`, `Reading.antt`, `Blocks.antt` and `Definitions.antt` have the rules as functions of
//! the state. `proofs` shows each exact (`Exact`): it reads what its rule says, wherever its rule says so,
//! up to a whole text, of which `text_step` gives the parts of its tree. Each function of the code answers
//! what its function of the state says (`Gives`). The state is that of `Reader`, which keeps the next
//! token; names are slices of the text, kept in sets in order of first appearance (`Names`).
//!
//! It stands on `il_lex` for the tokens, on `il_ast` for the tree, on `indexmap` for the sets of names
//! and on `thiserror` for the refusals.
#![tactic(auto)]

mod arguments;
mod block;
mod datum;
pub mod error;
mod fault;
mod function;
mod jump;
mod kinds;
pub mod laws;
mod lines;
mod names;
mod operand;
pub mod read;
mod reader;
mod spacing;
pub mod statement;
mod text;
mod words;
