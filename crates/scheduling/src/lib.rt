//! # Lines in another order
//!
//! A pass on location code. A line that reads what a load, a product or a quotient gives waits for that. [`schedule::schedule`] moves other lines of its block
//! between, where that is right.
//!
//! Which lines change places is a guess ([`choice`]), by latencies that stand in one table (`choice/latencies`). Nothing that is proved rests on it:
//! [`schedule::apply`] takes any plan, and does those of its swaps that may be done. A line and the next one change places where neither names a place that the
//! other writes and the one is not to be seen from the other (`specs/Independent`): the order of loads and stores stays, and so does what stands behind a call; a
//! line goes behind a tick, and never in front of one, so that ticks still pay for what comes behind them.
//!
//! The contract says which code is made (`specs/Independent`), that it keeps the code that was given, in the words of every pass, and that it weighs as much and has as
//! many slots.
//!
//! The guess looks at eight lines at a time, so that it takes time as the text is long.
//!
//! The crate stands on `vcode` for location code, and on `il_ast` for what keeping means.
#![tactic(auto)]

pub mod choice;
mod independent;
pub mod schedule;
mod swaps;
