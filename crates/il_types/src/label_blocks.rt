//! Where the block of each label stands.
ghost use Rattle.std.specs.Prelude.{◌≡◌, ℕ, cond, nat_eq, Some, None, IfOk, OnOk};
ghost use Rattle.std.specs.Option.{option_or};
ghost use Rattle.il_ast.specs.Prelude.{place_of};
ghost use Rattle.il_types.specs.Prelude.{place_in};

use il_ast::Block;
use std::alloc::{AllocError, Global};

/// For each label the place of its block among these, the first if there are several.
///
/// # Errors
///
/// Only where memory was refused.
pub fn block_places(alloc: Global, blocks: &[Block]) -> Result<Vec<Option<usize>>, AllocError>
    ensures { IfOk result (λ table. (l : ℕ) → place_in table.items l ≡ place_of blocks.now l) }
{
    let mut table = Vec::with_capacity(alloc, blocks.len())?;
    for (place, block) in blocks.iter().enumerate() {
        set_place(&mut table, block.label.number(), place)?;
    }
    Ok(table)
}

/// Gives a label its place, unless it has one.
fn set_place(table: &mut Vec<Option<usize>>, label: usize, place: usize) -> Result<(), AllocError>
    ensures { OnOk result ((l : ℕ) → place_in table.new.items l ≡ option_or (place_in table.old.items l) (cond (nat_eq label l) (Some place) None)) }
{
    while table.len() <= label {
        table.push(None)?;
    }
    if table[label].is_none() {
        table[label] = Some(place);
    }
    Ok(())
}
