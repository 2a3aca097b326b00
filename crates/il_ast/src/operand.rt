//! Operands and destinations.
use crate::operation::Class;
use crate::symbol::Symbol;
use crate::temp::Temp;

/// An operand: an integer modulo 2^64, a temporary, or a global name.
#[derive(Clone, Copy, PartialEq, Eq)]
pub enum Val {
    Int(u64),
    Temp(Temp),
    Global(Symbol),
}

impl Default for Val {
    fn default() -> Self {
        Val::Int(0)
    }
}

/// The temporary that an instruction assigns, with the class that is written there.
#[derive(Clone, Copy)]
pub struct Dest {
    pub temp: Temp,
    pub class: Class,
}

/// An argument of a call, with its class.
#[derive(Clone, Copy)]
pub struct Arg {
    pub class: Class,
    pub value: Val,
}

impl Default for Arg {
    fn default() -> Self {
        Arg {
            class: Class::W,
            value: Val::Int(0),
        }
    }
}
