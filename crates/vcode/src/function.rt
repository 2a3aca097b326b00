//! Functions in virtual code and in location code.
ghost use Rattle.std.specs.Prelude.{◌<◌, IsTrue, nat_le};
ghost use Rattle.il_ast.specs.declared.limits.TheConstants.{FUNCTION_WEIGHT};
ghost use Rattle.vcode.specs.declared.limits.TheConstants.{PLACES};
ghost use Rattle.vcode.specs.Named.{keeps_places, is_below, is_place, are_low, are_near, are_distinct};
ghost use Rattle.vcode.specs.Places.{virtual, located};
ghost use Rattle.vcode.specs.Regular.{IsRegular, code_weight};
ghost use Rattle.std.proofs.Props.{props};

use crate::code::Code;
use crate::place::Location;

/// A function in virtual code. Its places are virtual registers, numbered below `registers`. Parameters have registers of their own, numbered below 128. All
/// ticks of its text together weigh at most 40,000.
#[derive(Drop)]
pub struct VFunc {
    pub code: Code<u32>,
    pub registers: u32,
    pub ghost few: { registers < PLACES },
    pub ghost regular: { IsRegular code } by { Prim.hlevel props },
    pub ghost light: { IsTrue (nat_le (code_weight code) FUNCTION_WEIGHT) },
    pub ghost known: { IsTrue (keeps_places (is_below registers) code) },
    pub ghost low: { IsTrue (are_low code.params) },
    pub ghost distinct: { IsTrue (are_distinct virtual code.params) },
}

/// A function in location code. Its places are the registers x5 to x27 and slots of the frame, numbered below `slots`. Parameters have places of their own, with
/// slots below 128. All ticks of its text together weigh at most 40,000.
#[derive(Drop)]
pub struct LFunc {
    pub code: Code<Location>,
    pub slots: u32,
    pub ghost few: { slots < PLACES },
    pub ghost regular: { IsRegular code } by { Prim.hlevel props },
    pub ghost light: { IsTrue (nat_le (code_weight code) FUNCTION_WEIGHT) },
    pub ghost known: { IsTrue (keeps_places (is_place slots) code) },
    pub ghost near: { IsTrue (are_near code.params) },
    pub ghost apart: { IsTrue (are_distinct located code.params) },
}
