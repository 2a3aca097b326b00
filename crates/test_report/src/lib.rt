//! # The report of a table of tests
//!
//! [`report::Report`] counts cases, by groups and in all, and those of which a check failed, and writes a line for each check that fails and for each group. Its
//! contracts say both exactly (`specs/Tally`, `specs/Printed`), so that a failure can't get lost between a check and the last line. [`told::Told`] is how a run
//! ended, in words, and what it put out.
//!
//! The crate stands on std alone, apart from the tests that use it, so that its contracts and wrong bodies are checked without them.
#![tactic(auto)]

pub mod report;
pub mod told;
