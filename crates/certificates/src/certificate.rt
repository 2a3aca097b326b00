//! Certificates: where values are.
use il_ast::Seq;
use vcode::Location;

/// Where the virtual register has a value, the place holds it.
#[derive(Clone, Copy)]
pub struct Equality {
    pub register: u32,
    pub place: Location,
}

/// A move of what a place holds to another.
#[derive(Clone, Copy)]
pub struct Transfer {
    pub from: Location,
    pub to: Location,
}

/// An allocation, which may move a register from place to place.
#[derive(Drop)]
pub struct Certificate {
    /// where each parameter is on entry
    pub params: Seq<Location>,
    /// what holds at the start of every block, beside what `starts` has of it
    pub everywhere: Seq<Equality>,
    /// what holds at the start of each block, in text order
    pub starts: Seq<Seq<Equality>>,
    /// the moves that are done one after another right before each point
    pub moves: Seq<Seq<Transfer>>,
    /// for each point, the place of each register that it reads or writes
    pub places: Seq<Seq<Equality>>,
}
