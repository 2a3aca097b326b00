//! What each text itself defines its symbols as.
ghost use Rattle.std.specs.Prelude.{◌≡◌, ℕ, ◌&&◌, nat_eq, cond, Some, None, OnOk, IfOk};
ghost use Rattle.std.specs.Option.{option_or};
ghost use Rattle.obj_link.specs.Prelude.{own, held};

use crate::linking::names::GlobalName;
use il_ast::Target;
use std::alloc::{AllocError, Global};
use std::collections::HashMap;

/// What each text defines its symbols as, by the text's number and the symbol's. The first definition
/// of a name counts; a text that keeps the rules has one.
pub fn owned(
    alloc: Global,
    names: &[GlobalName],
) -> Result<HashMap<(usize, usize), Target>, AllocError>
    ensures { IfOk result (λ table. (t s : ℕ) → held table t s ≡ own names.now t s) }
{
    let mut table = HashMap::new(alloc);
    for global in names {
        define(
            &mut table,
            global.text,
            global.symbol.number(),
            global.target,
        )?;
    }
    Ok(table)
}

/// Gives a symbol of a text its meaning, unless it has one.
fn define(
    table: &mut HashMap<(usize, usize), Target>,
    text: usize,
    symbol: usize,
    target: Target,
) -> Result<(), AllocError>
    ensures { OnOk result ((t s : ℕ) → held table.new t s ≡ option_or (held table.old t s) (cond (nat_eq text t && nat_eq symbol s) (Some target) None)) }
{
    if !table.contains_key(&(text, symbol)) {
        let _ = table.insert((text, symbol), target)?;
    }
    Ok(())
}
