//! Texts that keep the rules.
ghost use Rattle.il_types.specs.Rules.{IsGood};
ghost use Rattle.std.proofs.Props.{props};

use il_ast::Text;

/// A text that breaks no rule and passes no limit of one text.
#[derive(Drop)]
pub struct Checked {
    pub text: Text,
    pub ghost good: { IsGood text } by { Prim.hlevel props },
}
