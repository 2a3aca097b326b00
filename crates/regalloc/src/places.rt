//! Which groups of registers get which places: `candidates` puts them in order, `rooms` has the registers of the machine and where they are free, and `slots` shares
//! slots.

pub(crate) mod candidates;
pub(crate) mod rooms;
pub(crate) mod slots;
