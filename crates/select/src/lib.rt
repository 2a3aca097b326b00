//! # Virtual code for functions without phis
//!
//! [`select::select`] makes the virtual code of a function without phis (`phi_copies`), and `specs/Selected` says which code that is: a temporary becomes the
//! virtual register of its number, in which a word stands sign-extended; an instruction becomes a tick, which begins its turn and spends its weight, and then one
//! or two lines; an ending becomes a tick, copies and a jump. A word that is read from a register of class W is taken as it stands: it is copied without an
//! operation, compared as a long is, and of two such words an operation on all bits gives another. The contract also says that the code keeps what the function
//! means (`specs/Laws`), for every instruction of the language, turn for turn.
//!
//! That follows from laws. [`laws::selected_is_code`] says it of each function of a good text, by way of the function without phis: `specs/Typed` says what the
//! code takes of that, namely that each temporary has one class, and that a long place takes no word; [`laws::lowered_is_typed`] that the rules of a good text give
//! it; [`laws::selection_keeps`] that the code then keeps it. [`laws::selected_is_virtual`] has the invariants of virtual code: where jumps lead, where memory is
//! made, that ticks pay for lines, and which registers are named. `specs/Narrow` is for private calls alone: registers and weights have 32 bits in the code, which is
//! enough within the limits of a good text; and so is `specs/Narrow`, for the table of the temporaries' classes (`specs/Selected`) that the code is made with.
//!
//! Only what makes code wants memory. The crate stands on `phi_copies` for functions without phis, on `il_types` for the rules, on `vcode` for virtual code, on
//! `rv_isa` for its operations, and on `bits` for extending numbers.
#![tactic(auto)]

mod classes;
mod comparison;
mod instruction;
pub mod laws;
mod leave;
mod operand;
mod operation;
pub mod select;
