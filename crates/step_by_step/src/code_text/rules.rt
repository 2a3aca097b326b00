//! What a code has to keep to be a function's, and the test of it.
//!
//! The types of functions in virtual and in location code carry what every such function keeps. [`check::is_function`] tests that of a code that comes from elsewhere, as from a text: the
//! code names only places that exist, its parameters come to near places, no two to one, its jumps lead to blocks, blocks of memory are made in the first block and fit into the stack,
//! its ticks pay for its lines, and its weight is within the limit. Its contract is `IsFunction` of `specs/Function`.

pub mod check;
pub mod place;
