//! # Certificates of register allocation
//!
//! An allocation is a [`certificate::Certificate`]: where the parameters are on entry, what is known where at the start of every block and of each, the moves right before
//! each point, and the place of each register that a point names. A [`strategy::Strategy`] answers one, or none, and promises nothing: whoever uses an answer
//! has it checked.
//!
//! [`spill_all::SpillAll`] answers slot i for virtual register i, everywhere, and names live registers alone. [`list::certificate_of`] makes a certificate of a
//! list with one place for each register. The contracts of both say what the certificate is (`specs/Listed`).
//!
//! Points are those of `cfg_live`: lines but for ticks, and jumps, from 0 in the order of the text. The crate stands on it for live registers and on `vcode`
//! for code and places.
#![tactic(auto)]

pub mod certificate;
pub mod list;
pub mod spill_all;
pub mod strategy;

pub use certificate::{Certificate, Equality, Transfer};
pub use spill_all::SpillAll;
pub use strategy::Strategy;
