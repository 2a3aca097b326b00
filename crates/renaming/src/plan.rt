//! What the registers of a function are to be called.

use il_ast::Seq;

/// A register, and the register of the new code that holds its value.
#[derive(Clone, Copy)]
pub struct Renamed {
    pub register: u32,
    pub name: u32,
}

/// Other names for registers. Where it isn't right, the function stays as it is.
#[derive(Drop)]
pub struct Plan {
    /// for each register whether it keeps its name everywhere
    pub plain: Vec<bool>,

    /// for each register that the new code has beyond those, the one whose values it holds
    pub owners: Vec<u32>,

    /// for each block the registers that have a name where it begins, beside the plain ones
    pub starts: Vec<Seq<Renamed>>,

    /// for each block, for each of its lines, the name of the register that the line writes
    pub written: Vec<Seq<u32>>,
}
