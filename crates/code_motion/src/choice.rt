//! Which computations are worth doing in front of loops: a guess that nothing proved rests on.
//!
//! [`choose::choose_plan`] names operations in loops whose operands the loop doesn't write, a register for each that the function doesn't have, and the block in front of
//! the loop that is to do it. Of a sum of three registers of which one changes it names the sum of the other two, and so of words, of which one may be a number. A sum with a product of a register that the loop adds a
//! number to is named in front of the loop, and what is added to it where that register grows (`growing`). An address is named
//! without the number that is added to its base (`offsets`). `candidates` looks first whether there may be anything to do. `nests` goes over the loops; where the ticks of the block in front of one don't pay for all, blocks that dominate it take some (`dominators`). `written` has what loops write, `reads` how often registers are read, and `credit` what
//! the ticks of a block leave for more lines.

mod candidates;
pub mod choose;
mod credit;
mod dominators;
mod growing;
mod nests;
mod offsets;
pub(crate) mod reads;
mod written;
