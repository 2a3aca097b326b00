//! # Liveness
//!
//! Which virtual registers of a function still have a use at each of its points. Right before a point a register is live where some path of the graph from
//! there reads it before it is written.
//!
//! The points are instructions and jumps, numbered from 0 in the order of the text; ticks are none. `specs/Rows.antt` has them with what they read and
//! write and which may come next, `specs/Rows.antt` what live means. [`points::graph`] makes them of a function.
//!
//! [`live::live`] answers a [`sets::Live`], whose `holds` says whether a register is live right before a point, both ways exactly; [`live::live_in`] does so
//! of any graph. It has a set for each point, a bit for each register. The sets grow from empty ones: of few points in a few sweeps from the last point to the first,
//! behind which only points that lead back have to be looked at again. Of more points, or where that isn't enough, they grow in a sweep along a postorder of the graph, or two where there are loops, and then from a
//! worklist of the points behind which a set grew, so that the order of the blocks in the text does not matter; a last sweep over all points changes none. That
//! shows that the sets are closed, and that such sets are exact is a law of its own ([`laws`]). Only what makes sets and lists wants memory; `holds` takes none.
//!
//! [`reads`] has what lines and jumps read as guesses ask for it: without taking memory, and in no contract.
//!
//! The crate stands on `vcode` for the code and on `bitset` for sets.
#![tactic(auto)]

mod flow;
pub mod graph;
pub mod laws;
pub mod live;
pub mod low_registers;
pub mod numbering;
mod order;
pub mod points;
pub mod reads;
pub mod sets;
mod spread;
mod sweep;
pub mod uses;
mod worklist;

pub use graph::Graph;
pub use low_registers::LowRegisters;
pub use reads::Reads;
pub use sets::Live;
pub use uses::Uses;
