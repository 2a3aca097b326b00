//! # Virtual code and location code as texts
//!
//! Tests give small functions, and say what becomes of them, as texts in the style of the source language:
//!
//! ```text
//! function l (l %0) registers 4
//! @0
//! tick 1 turn
//! %1 = add %0, -5
//! %2 = ld 40(%1)
//! %3 =w call $7(l %0, w claimed %2)
//! branch ceqw %3, 0, @1, @2
//! @1
//! storeb 0, -1(%0)
//! ret %2
//! @2
//! halt
//! ```
//!
//! A first line has the class of the result, if there is one, the parameters with their classes, and how many registers there are. Blocks begin with their numbers and end with
//! `goto @N`, `branch`, `ret` or `halt`. Lines are
//!
//! - `tick WEIGHT` and `tick WEIGHT turn`;
//! - `P = OPERAND`, `P = OPERATION OPERAND, OPERAND` and `P = LOAD OFFSET(OPERAND)`, with the machine's names, and the source's for comparisons;
//! - `storeb`, `storeh`, `storew` and `storel OPERAND, OFFSET(OPERAND)`;
//! - `P = alloc BYTES` and `alloc BYTES`, and `blit FROM, TO, BYTES`;
//! - `P =CLASS call OPERAND(CLASS OPERAND, ..)` and `call` without a result.
//!
//! An operand is a place, a number, or `$N`, the global name with that number. A virtual register is `%N`; in location code a place is a register `xN` or a slot `[N]`, and the first
//! line says how many slots there are.
//!
//! [`function`] reads functions, with the invariants of their types checked ([`rules`]), and writes them. A text that is read is what is written of the function, but for the spacing
//! around lines, so that each function has one text.
//!
//! By contract what [`rules::check::is_function`] accepts is a function (`IsFunction` of `specs/Function`); what is read and written has no contract, and is for
//! tests alone.

pub mod function;
mod names;
pub mod place;
mod read;
pub mod rules;
pub mod words;
mod write;
