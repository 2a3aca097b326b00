//! What is known of a function before registers are given: `facts::facts_of` finds the `facts::Facts`.
//!
//! `positions` are those in the text, `text` has the blocks. `demands` says what registers are used for and, by `accesses`, where; `starts`
//! which of them are live where blocks begin; `live_intervals` where they have values. `coalescing` joins registers that are copied to one another and never have
//! values at the same time.

pub(crate) mod accesses;
pub(crate) mod coalescing;
pub(crate) mod demands;
pub(crate) mod facts;
pub(crate) mod live_intervals;
pub(crate) mod positions;
pub(crate) mod starts;
pub(crate) mod text;
