//! The arguments of a phi by their labels.
ghost use Rattle.std.specs.Prelude.{◌≡◌, nat_eq, true, Some, IfSome, find};
ghost use Rattle.il_ast.specs.declared.block.PhiArg.{PhiArg as PhiArgOf};
ghost use Rattle.il_types.specs.Prelude.{are_distinct};

use il_ast::{Label, PhiArg};

/// The first argument for the block of a label.
pub fn search(args: &[PhiArg], from: Label) -> Option<PhiArg>
    ensures { result ≡ find (λ (a : PhiArgOf). nat_eq a.from from) args.now }
{
    for arg in args {
        if arg.from.number() == from.number() {
            return Some(*arg);
        }
    }
    None
}

/// The argument at a place, where that is the one for the block of a label.
#[tactic(auto, using(crate::proofs::ArgumentLemmas::found_at))]
pub fn argument_at(args: &[PhiArg], from: Label, place: usize) -> Option<PhiArg>
    requires { are_distinct args.now ≡ true }
    ensures { IfSome result (λ arg. find (λ (a : PhiArgOf). nat_eq a.from from) args.now ≡ Some arg) }
{
    match args.get(place) {
        Some(arg) => {
            if arg.from.number() == from.number() {
                Some(*arg)
            } else {
                None
            }
        }
        None => None,
    }
}
