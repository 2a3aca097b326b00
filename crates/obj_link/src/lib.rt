//! # Linking texts, and the linked image of a program
//!
//! [`linking::resolve::resolve`] links texts that keep the rules: it gives each global name of each text its meaning, or refuses the texts. Texts are a
//! program exactly where `IsProgram` of `specs/Program.antt` holds, and are at most one ([`laws::at_most_one_program`]). An answer is that program,
//! and a refusal, aside want of memory, says what is true of the texts and comes only where they are no program. A [`linking::linked::Linked`] borrows
//! the functions and data of the texts and says what each name means by numbers, so that nothing later looks up a name.
//!
//! The work goes over the definitions once, with a look-up in a hash table for each definition and for each name that a text mentions.
//!
//! [`placing::place::place`] makes the image of a linked program whose functions have been laid out: the start code, `write` and `exit`, the functions in
//! order, the data in order, each name filled in by its address. What it makes is `contents_of` of `specs/Placed.antt`, and there is no error but want of
//! memory; where each function has at most 32 words for each unit of its weight and 256 more, a program always fits ([`laws::programs_fit`]).
//!
//! | Definitions | Subject |
//! |---|---|
//! | `specs/Names`, `specs/Main`, `specs/Limits` | what names mean; the function that a program begins with; limits over all texts |
//! | `specs/Program`, `specs/Refusals` | when texts are a program; what a refusal says |
//! | `specs/Placed` | what an image of a program is: where its functions and data stand, and the bytes of the data |
//! | `specs/Natives`, `specs/Placed` | the first words of every program; the image of one whose functions have certain words |
//!
//! # The image
//!
//! [`Image`] is what linking gives and what an executable file is written from: the instruction words of the code and the bytes of the data, with
//! all names filled in by addresses. The crate fixes where both stand in memory.
//!
//! | Part | Address | Access |
//! |---|---|---|
//! | code | [`CODE_START`], `0x10000` | executed; neither read nor written |
//! | data, if there is any | the first multiple of [`PAGE`], 4096, after the code | read and written |
//! | neither | from [`IMAGE_END`], `0x0f800000`, upward, where the stack begins | |
//!
//! The program starts at the first word of its code.
//!
//! Every image keeps `IsImage` of `specs/Image.antt`: it has at least one word of code, its data is a multiple of [`SLOT`], 16, bytes, and all of it
//! lies below `IMAGE_END`. Whoever makes an image shows this once, at [`Image::new`]; each reader hands it on.
//!
//! Clauses see an image as `Contents`: the list of its words and the list of its bytes.
//!
//! The crate stands on `il_ast` and `il_types`, on `rv_isa`, `asm_layout` and `bits` for the words of code, and on `thiserror` for the texts of refusals.
#![tactic(auto)]

pub mod arguments;
pub mod laws;
pub mod linking;
pub mod placing;

pub use linking::error::LinkError;
pub use linking::linked::Linked;
pub use placing::image::{CODE_START, IMAGE_END, Image, PAGE, SLOT};
