//! The tree of one text.
ghost use Rattle.std.specs.Prelude.{◌≡◌, Some, length, IsTrue};
ghost use Rattle.il_ast.specs.Mentions.{come_after, are_distinct};
ghost use Rattle.il_ast.specs.Symbols.{symbols_of};
ghost use Rattle.std.proofs.Props.{props};

use crate::datum::DataDef;
use crate::function::Func;
use crate::list::Seq;
use crate::name::Name;

/// A definition.
#[derive(Drop)]
pub enum Definition {
    Function(Func),
    Object(DataDef),
}

/// The tree of a text.
///
/// `symbols` are the global names that it mentions, each once, in order of first appearance.
#[derive(Drop)]
pub struct Text {
    pub definitions: Seq<Definition>,
    pub symbols: Seq<Name>,
    /// the number of its lines: 1 more than its bytes 10
    pub lines: usize,
    /// its length in bytes
    pub bytes: usize,
    pub ghost symbols_in_order: { come_after 0 (symbols_of definitions) ≡ Some (length symbols) } by { Prim.hlevel props },
    pub ghost symbols_distinct: { IsTrue (are_distinct symbols) },
}
