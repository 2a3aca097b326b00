//! Functions without phis.
ghost use Rattle.phi_copies.specs.Good.{IsGoodFunction};
ghost use Rattle.phi_copies.specs.Lowered.{IsLowered};
ghost use Rattle.phi_copies.specs.OneProof.{lowered_prop};
ghost use Rattle.std.proofs.Props.{props};

use crate::ending::Ending;
use il_ast::{Func, Seq};

/// A function without phis: the blocks of the source with their instructions as they are, an ending for each in the place of its phis and its jump, and
/// behind them blocks that have an ending alone. The temporaries of its phis are numbered after its own.
#[derive(Drop)]
pub struct NoPhi<'a> {
    pub func: &'a Func,
    /// the ending of each of the function's blocks, in order
    pub endings: Seq<Ending>,
    /// the blocks behind them, which are numbered after them
    pub edges: Seq<Ending>,
    pub ghost good: { IsGoodFunction func.now } by { Prim.hlevel props },
    pub ghost lowered: { IsLowered func.now (record { endings = endings; edges = edges }) } by { lowered_prop func.now _ },
}
