//! A pass on virtual code, the sinking of partially dead assignments of numbers. [`sink::sink_constants`] sets registers that hold numbers again in blocks that want them (`specs/Known`): a text sets ten variables to 0 in
//! front of a branch though one way behind it reads none of them. Each such line sets a register to what it holds already. `dead_code`, which goes behind
//! this pass, then drops the lines in front of the branch, whose values nobody reads any more.
//!
//! Which blocks set which registers is a guess ([`choice`]): a block that one other alone leads to, by a branch, sets what that one has set and not read, where
//! it has the register live and the other way of the branch doesn't. The lines stand behind those of the block, since the ticks in front of them
//! have to pay. A walk over each block that leads to such a block tests that the register is known to hold the number there; where it isn't, the function
//! stays as it is ([`sink::apply`] takes any plans). A block that its ticks wouldn't pay for stays as it is too. So no proof rests on the guess, nor on what is live.
//!
//! A block sets at most 64 registers, so that it takes time as the text is long, but for finding the live registers.

pub mod choice;
pub mod known;
mod numbers;
pub mod sink;
mod with_sets;
