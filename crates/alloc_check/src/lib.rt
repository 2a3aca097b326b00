//! # Checked allocations
//!
//! Location code made of virtual code, which goes as that does. [`spill_all::spill_all`] puts virtual register i into slot i everywhere: its contract says what
//! the code is (`specs/Placed`), and that it keeps the virtual code (`specs/Kept`): whatever global names mean, whatever calls are made and however they go,
//! where the virtual code runs as an outcome that is not undefined, the other runs as the same one, with the same calls.
//!
//! A certificate of `certificates` says where each register is from point to point, with moves between. `specs/Certified` has the code that it makes and what makes
//! it sound: each line finds what it reads, and each jump what its targets ask for, as far as the owners of places are known (`specs/Certified`). The law
//! [`laws::sound_certificates_keep`] says that the code of a sound certificate keeps the virtual code.
//!
//! [`accept::accept`] takes a certificate from anyone and makes its code, or answers `Refused::No`. Its contract says what the code is, that it keeps the virtual
//! code, and that the answer is no only for certificates that `specs/Slotted` doesn't accept: those that aren't sound, name places or registers that there
//! aren't, have a list that is too short or too long, have for a point a register without a place or with two, have everywhere two registers in a place or two
//! places for a register, put two parameters into one place, or move more than the ticks pay for.
//!
//! The check goes over the code, with a table of the places' owners in which asking and writing take the same time however many places there are; the code is made
//! after it. What holds at the start of every block lies under that table, so that a block begins at once, and before a jump only that of it is looked at which
//! the block may have changed (`specs/Walk`).
//!
//! [`placing`] makes lines and jumps with a place for each register, wherever a [`placing::Placing`] says that is.
//!
//! Only what makes code wants memory. The crate stands on `vcode` for both codes, on `certificates` for certificates, and on `il_ast` for what keeping means.
#![tactic(auto)]

pub mod accept;
mod certified;
mod check;
mod entry;
mod first;
mod fits;
mod frame_slots;
pub mod laws;
pub mod placing;
mod points;
mod says;
pub mod spill_all;
mod stays;
mod table;
mod whole;
