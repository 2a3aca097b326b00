//! # Phis, made into copies
//!
//! The phis of a block all read before one of them is written. Code does one copy after another, so what is still to be read must not be overwritten.
//!
//! `lower::lower` takes a function's phis away: `no_phi::NoPhi` has the function's blocks with their instructions as they are, and for each block an ending in the
//! place of its jump, [`ending::Ending`]: what turn and weight it spends, copies, and where it leaves to. The phis of a block are done where the block is entered
//! from, by copies in an order. After a branch they stand in a block of their own, an edge, so that they are done on that way alone. The lowered function keeps what
//! the function means, turn for turn (`specs/Endings` has what it does, `specs/Lowered` what it is, `specs/Keeping` what it owes; `laws::lowering_keeps`).
//!
//! Of the copies on an entry `specs/Copies` says that they leave what writing all phis at once leaves, that they fit any classes that the phis fit, which temporaries
//! they name, and how many they are; not which ones they are. `together` makes them: first the moves of words between two temporaries, then those of longs, then
//! numbers and names, and phis of themselves. The moves of each class are put in an order by `sequence`, with the own temporary of the first phi of the class to be
//! used besides. What the words write no long reads, by the rules of a good text; that a word reads a long is why words go first.
//!
//! Where an argument of a phi stands is noted once for its label, and looked up there. So the work is linear in the function, but for the look-ups of `sequence`.
//!
//! `sequence::sequence` puts copies that are to be done at once in an order. Places are numbers, and the scratch place is one that no move names. Done one after
//! another, the moves of the answer leave in each destination what its source held before, and change no other place but scratch. For n moves between two places
//! the answer has at most n + n / 2; a move of a place to itself is left out. Each of them goes to a destination of the given moves or to scratch. What holds of
//! places with numbers in them holds of any values (`does_at_once` in `proofs/Carrying.antt`). `specs/Together.antt` says what moves leave; `specs/Order.antt` has
//! what is true while they are put in order. The work is one look-up in an ordered map for each move, and otherwise linear.
//!
//! The order is made from its end. From a move the way goes to the one that writes what it reads, and on from there, until nothing writes it or a visited move
//! comes. The moves of the way are placed from its end back, each in front of those that are placed. If the way meets itself, its end is placed with the scratch
//! place for its source, and the move to scratch stands before the cycle.
//!
//! The crate stands on `il_ast` for functions and their meaning, and on `il_types` for the rules that they keep.
#![tactic(auto)]

mod arguments;
mod copies;
mod edges;
pub mod ending;
pub mod laws;
pub mod lower;
mod map;
pub mod moves;
pub mod no_phi;
pub mod sequence;
mod together;
