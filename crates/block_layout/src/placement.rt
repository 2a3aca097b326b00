//! Blocks in another order. A jump to the block that stands next takes no instruction, and a branch takes no jump beside it where one of its targets stands next.
//! [`order::place_blocks`] puts the blocks of a function so that fewer jumps are taken, and leaves out those to which nothing leads.
//!
//! The order is a guess at what runs often ([`choice`]). Nothing that is proved rests on it: [`order::in_order`] puts blocks in any order that is one (`is_order` in
//! `specs/Ordered`), and leads jumps to where their targets stand then. Its contract says that the code is kept, and that it is the code in some order.

mod blocks;
pub mod choice;
pub mod order;
mod places;
