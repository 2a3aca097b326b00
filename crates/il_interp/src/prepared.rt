//! A program that is prepared to be run.
ghost use Rattle.std.specs.Prelude.{◌≡◌, ℕ, map};
ghost use Rattle.std.proofs.Props.{props};
ghost use Rattle.obj_link.specs.Prelude.{shown};
ghost use Rattle.il_interp.specs.Places.{needs_of, placed, places_of};

use crate::edges::Edges;
use il_ast::Seq;
use obj_link::Linked;

/// A program, with what is worked out once before it is run: for each function how much room its
/// activations take, where the block of each label stands, and where the arguments of phis stand. Those
/// places are looked up to save a search, and it is seen there whether they are right.
#[derive(Drop)]
pub struct Prepared<'a> {
    pub linked: &'a Linked<'a>,
    pub needs: Vec<u64>,
    pub places: Vec<Seq<Option<usize>>>,
    pub edges: Vec<Seq<Edges>>,
    pub ghost needs_are: { needs.items ≡ needs_of (map shown linked.now.functions) } by { Prim.hlevel props },
    pub ghost places_are: { (k l : ℕ) → placed places.items k l ≡ places_of (map shown linked.now.functions) k l } by { Prim.hlevel props },
}
