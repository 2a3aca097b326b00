//! # Code on flat bytes
//!
//! The memory of the language is made of blocks without addresses; that of the machine is bytes by address. `specs/Flat.antt` says which bytes stand for
//! which blocks, and `specs/Flat.antt` what it means that a code on bytes keeps a code on blocks (`KeepsFlat`). No other crate gives a block an address.
//!
//! Location code needs no change to run on bytes: `specs/Step.antt` says what its lines and jumps do there, with numbers for values. The law
//! [`laws::code_on_bytes_keeps`] says that every regular code on bytes keeps the same code on blocks, whatever its calls do; [`function::flat`] takes a
//! function over as one on bytes, with the law's conclusion for its code.
//!
//! The crate stands on `vcode` for the code and what it means on blocks, on `rv_isa` for the operations, and on `il_ast` for values, memory and calls. It takes
//! no memory.
#![tactic(auto)]

pub mod function;
pub mod laws;
