//! Linking: what each global name of the texts means, or why they are no program.

pub mod error;
pub(crate) mod exports;
pub mod limits;
pub mod linked;
pub(crate) mod main_function;
pub(crate) mod names;
pub mod resolve;
pub(crate) mod tables;
pub(crate) mod targets;
