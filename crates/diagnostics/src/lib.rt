//! # What is wrong with texts and runs, in words
//!
//! For whoever wrote a text that is refused: what stands where the reading of it ended, which names break which rule, which limit is passed and by how much, and which
//! definitions stand in each other's way. Why a text is refused, and at which line, is decided by `il_reader`, `il_types` and `obj_link`; here it is only explained.
//!
//! - [`text::syntax`], [`text::rule`] and [`text::limit`] explain why one text is refused.
//! - [`text::other_rules`] and [`reading_on::behind_stop`] find what else is wrong with a text.
//! - [`linking::link`] explains why texts that keep the rules are no program.
//! - [`warning::warnings`] finds what is likely a mistake in a program.
//! - [`trace::story::story`] tells where and why a run of a program ended that is undefined, runs out of stack or comes to its limit.
//!
//! No words are promised: they are for people, and nothing that is proved rests on them. Each function is safe and ends. What is said of a limit of one text is said of that text, by the
//! contract of [`text::limit`].
//!
//! The crate stands on `il_reader`, `il_types` and `obj_link` for refusals, on `il_interp` for runs that were watched, and on `text_maker` for the words.
#![tactic(auto)]

mod broken;
mod call;
mod comparison;
mod data;
mod definition;
mod label;
mod limit;
pub mod linking;
mod mention;
mod name;
pub mod note;
mod paths;
mod phi;
mod place;
pub mod reading_on;
pub mod remark;
mod size;
mod syntax;
mod temporary;
pub mod text;
pub mod trace;
pub mod warning;
