//! Where the names of a program stand in an executable of it.
//!
//! [`table::symbols`] says where the functions and the data of linked texts stand: the address, the size and the name of each, in the order of addresses. They are those of
//! `specs/Symbols`: the addresses of the image of the program whose functions have these words. [`listing::listed_file`] compiles texts, and gives the same of the file that it makes, as
//! the lines of `specs/Symbols`, or says why they are refused.

pub mod listing;
pub mod symbol;
pub mod table;
