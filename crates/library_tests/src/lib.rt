//! # Tests of libraries
//!
//! What neither the contracts of the libraries nor the tables of `step_by_step` can say: that calls which may want memory succeed with ample memory; that lists, sets, blocks of
//! memory and moves are what a reader expects; that layout and linking give the words of the assembler; that a machine does what the manual says, over both kinds of memory;
//! and that sinks, files in memory and disassemblies do what a reader expects.
//!
//! They stand here and not in those crates, since a crate with tests is proved once more with them. So all of them call public functions alone.
#![tactic(auto)]

#[cfg(test)]
mod addresses;
#[cfg(test)]
mod disassembled;
#[cfg(test)]
mod halves;
#[cfg(test)]
mod laid;
#[cfg(test)]
mod list;
#[cfg(test)]
mod machines;
#[cfg(test)]
mod memory;
#[cfg(test)]
mod moves;
#[cfg(test)]
mod operations;
#[cfg(test)]
mod placed;
#[cfg(test)]
mod reading;
#[cfg(test)]
mod refusing;
#[cfg(test)]
mod same;
#[cfg(test)]
mod sets;
#[cfg(test)]
mod shown;
#[cfg(test)]
mod sinks;
#[cfg(test)]
mod texts;
