//! # A bound on the stack that a program takes
//!
//! [`greatest::bounds_of`] finds a bound for each function of a linked program: at least what the function needs and the greatest bound of what it calls. It is right
//! by contract (`AreBounds` of `specs/Bounds`), since a proved check ([`check::are_bounds`]) goes over the program once. Where `main` has a bound,
//! [`greatest::greatest_use`] says by contract that so much stack is enough for every run, whatever the argument words and the turns; and where that is at most the
//! room that `main` is called with, that no run of the program ends for want of stack. [`laws`] has both of any bounds.
//!
//! A call by pointer is taken to mean each function with as many parameters whose name stands where it may become a value. So recursion, by name or by such a pointer,
//! gives no bound; [`cycle::way_to_cycle`] shows a cycle then. What bounds are guessed ([`graph`]), and that cycle, promise nothing: a guess that isn't right is
//! given up.
//!
//! | Definitions | Subject |
//! |---|---|
//! | `specs/Bounds` | when bounds are right |
//! | `specs/Bounds` | what they are good for |
#![tactic(auto)]

mod blocks;
pub mod bounds;
pub mod check;
pub mod cycle;
mod data;
pub mod graph;
pub mod greatest;
mod guess;
pub mod laws;
mod names;
mod values;
