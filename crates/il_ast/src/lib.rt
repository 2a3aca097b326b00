//! The tree of a text of the QBE intermediate language (its integer part), and what it means.
//!
//! `Text` is the tree of one text, as the reader makes it; `Program` is several texts in which every
//! global name has its meaning. Both are plain data with public fields, in which lists are `Seq` (and
//! `Few` where a list is nearly always short); a clause sees each as the list of its items.
//! Temporaries, labels and global names are interned: an operand holds the number of its name.
//!
//! The folder `specs` says what a program means, in full and with no other crate's help: values,
//! memory, operations, the effect of one turn, runs, calls, the start, the stack, weight and price.
//! The laws of that meaning stand as contracts in `laws`.
#![tactic(auto)]

pub mod block;
pub mod condition;
pub mod datum;
pub mod few;
pub mod function;
pub mod instruction;
pub mod label;
pub mod laws;
pub mod limits;
pub mod list;
pub mod name;
pub mod operand;
pub mod operation;
pub mod program;
pub mod symbol;
pub mod temp;
pub mod text;
pub mod value;

pub use block::{Block, Phi, PhiArg};
pub use datum::{DataDef, Field, Item};
pub use few::Few;
pub use function::{Func, Param};
pub use instruction::{Inst, Jump, Lined};
pub use label::Label;
pub use list::Seq;
pub use name::Name;
pub use operand::{Arg, Dest, Val};
pub use operation::{Alignment, BinaryOp, Class, Condition, Extension, Size, UnaryOp};
pub use program::{InText, Target};
pub use symbol::Symbol;
pub use temp::Temp;
pub use text::{Definition, Text};
pub use value::{Callee, Cell, End, Value};
