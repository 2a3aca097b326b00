//! # Laying out code
//!
//! [`layout::layout`] makes words of a function's labelled code. Wherever the words stand in memory, with the addresses of globals filled into their
//! holes, the labelled code stands: the machine, coming to an item, does what the item says and comes to the next one (`LaysOut` of `rv_isa`). There is
//! one word at least, so that no two functions have one address, and no more than the longest forms of all items take. Nothing but want of memory
//! can fail.
//!
//! | Form | Reach | Words of a jump | Words of a branch |
//! |---|---|---|---|
//! | short | a branch's offset | `jal` | the branch |
//! | middle | the offset of `jal` | `jal` | the inverse branch over a `jal` |
//! | far | any | `auipc` and `jalr` through x31 | the inverse branch over these two |
//!
//! A form is chosen by the places that items would have if all of them took their longest form. Real places are never farther apart, so the form
//! fits, and nothing is tried again: three passes over the items, one for those places, one for the real ones, one for the words.
//!
//! Calls of globals have the form that is asked for ([`call::CallForm`]), since their distances aren't known here: `jal`, or `lui` and `jalr` through x1. That
//! each `jal` reaches is for whoever fills in the addresses.
//!
//! `specs/Forms.antt` has the forms, the places and the words as functions of the code, and `layout` answers exactly these words.
//!
//! The crate stands on `rv_isa` for code and the machine, and on `bits` for the two halves of a distance.
#![tactic(auto)]

pub mod call;
mod emit;
mod jump;
pub mod layout;
mod places;
mod reach;
mod sizes;
