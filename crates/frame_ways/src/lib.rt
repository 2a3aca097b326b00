//! # Ways without a frame: code with marks
//!
//! Where ways through a function need no frame, its code on bytes is made once more, of *parts* with marks (`mark`, `specs/Plans.antt`). A bare part is a copy of a block
//! that touches no slot, writes no register that a callee keeps, and makes no call and no block of memory (`bare`); a framed part is one that may do all of it. Where a
//! bare one leads to a framed one, a begin stands between: a block on the edge, at whose head the frame is to be made. Framed parts lead to framed ones alone,
//! so a frame is made once in a call.
//!
//! Which blocks have which parts, and in what order these stand, is a guess (`choice`), the plan. It is tested (`specs/Plans.antt`), and a plan that is right gives code that
//! runs as the function's does (`specs/Keeping.antt`): nothing here knows a machine. What a mark is for is known to `abi_frames`, which makes the machine code.
//!
//! The crate stands on `flat_code` for what code does on bytes, and on `vcode` for the code.
#![tactic(auto)]

pub mod bare;
mod choice;
pub mod mark;
mod plan;
pub mod ways;
