//! The places of a function that rules speak of, each with its line.
use il_ast::{Class, Temp, Val};

/// Where a temporary is assigned: a parameter, a phi or an instruction.
#[derive(Clone, Copy)]
pub struct Definer {
    pub line: usize,
    pub temp: Temp,
    pub class: Class,
}

/// An operand, in a place of a class.
#[derive(Clone, Copy)]
pub struct Operand {
    pub line: usize,
    pub class: Class,
    pub value: Val,
}

/// A place that names something by a number: a parameter, a label, a jump, a global name.
#[derive(Clone, Copy)]
pub struct Site {
    pub line: usize,
    pub number: usize,
}
