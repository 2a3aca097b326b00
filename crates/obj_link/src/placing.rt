//! Placing: the words and the bytes of a program at their addresses.

pub(crate) mod addresses;
pub(crate) mod data_bytes;
pub(crate) mod fill;
pub(crate) mod image;
pub(crate) mod natives;
pub mod place;
pub(crate) mod reach;
