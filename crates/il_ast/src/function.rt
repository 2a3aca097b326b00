//! Functions (QBE IL, "Functions").
ghost use Rattle.std.specs.Prelude.{◌≡◌, Some, length, IsTrue};
ghost use Rattle.il_ast.specs.Mentions.{come_after, temps_of, labels_of, are_distinct};
ghost use Rattle.il_ast.specs.Written.{has_block, have_arguments};
ghost use Rattle.std.proofs.Props.{props};

use crate::block::Block;
use crate::list::Seq;
use crate::name::Name;
use crate::operation::Class;
use crate::symbol::Symbol;
use crate::temp::Temp;

/// A parameter.
#[derive(Clone, Copy)]
pub struct Param {
    pub line: usize,
    pub temp: Temp,
    pub class: Class,
}

/// A function. It has a block, and each of its phis an argument.
///
/// `temps` and `labels` are the names of its temporaries (parameters among them) and labels, each
/// once, in order of first appearance; everything else names them by their place there.
#[derive(Drop)]
pub struct Func {
    /// the line of the name
    pub line: usize,
    pub exported: bool,
    pub name: Symbol,
    pub result: Option<Class>,
    pub params: Seq<Param>,
    pub blocks: Seq<Block>,
    pub temps: Seq<Name>,
    pub labels: Seq<Name>,
    pub ghost temps_in_order: { come_after 0 (temps_of params blocks) ≡ Some (length temps) } by { Prim.hlevel props },
    pub ghost labels_in_order: { come_after 0 (labels_of blocks) ≡ Some (length labels) } by { Prim.hlevel props },
    pub ghost temps_distinct: { IsTrue (are_distinct temps) },
    pub ghost labels_distinct: { IsTrue (are_distinct labels) },
    pub ghost some_block: { IsTrue (has_block blocks) },
    pub ghost some_argument: { IsTrue (have_arguments blocks) },
}
