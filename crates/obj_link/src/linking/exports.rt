//! What texts can see of one another.
ghost use Rattle.std.specs.Prelude.{◌≡◌, ◌<◌, ◌≤◌, ℕ, List, [], cond, slice_index_or, Some, OnOk, IfOk, MatchResult, IsTrue, bytes_eq};
ghost use Rattle.obj_link.specs.Prelude.{symbol_name, predefined, visible, times_exported, seen, is_free, RefusesExports};

use crate::linking::error::LinkError;
use crate::linking::names::GlobalName;
use il_ast::{Callee, Name, Target};
use il_types::Checked;
use std::alloc::{AllocError, Global};
use std::collections::HashMap;

/// What each exported name means, with the predefined functions.
///
/// `LinkError::ExportedTwice` names one that is exported more than once, or that of a predefined
/// function.
pub fn exports<'a>(
    alloc: Global,
    texts: &'a [Checked],
    names: &[GlobalName],
) -> Result<HashMap<&'a [u8], Target>, LinkError<'a>>
    ensures seen { IfOk result (λ table. (name : List ℕ) → seen table name ≡ visible texts.now names.now name) }
    ensures once { OnOk result ((name : List ℕ) → times_exported texts.now names.now name ≤ 1) }
    ensures twice { MatchResult result (λ _. Unit {0}) (λ error. RefusesExports error texts.now names.now) }
{
    let mut table = predefined_functions(alloc)?;
    for global in names {
        if global.exported {
            let name = symbol_name(texts, global.text, global.symbol.number());
            if !declare(&mut table, name, global.target)? {
                return Err(LinkError::ExportedTwice(name));
            }
        }
    }
    Ok(table)
}

fn predefined_functions<'a>(alloc: Global) -> Result<HashMap<&'a [u8], Target>, AllocError>
    ensures { IfOk result (λ table. (name : List ℕ) → seen table name ≡ predefined name) }
{
    let mut table = HashMap::new(alloc);
    let write: &'a [u8] = b"write";
    let exit: &'a [u8] = b"exit";
    set(&mut table, exit, Target::Code(Callee::SystemExit))?;
    set(&mut table, write, Target::Code(Callee::SystemWrite))?;
    Ok(table)
}

/// Gives a name its meaning, unless it has one. Answers whether it hadn't.
fn declare<'a>(
    table: &mut HashMap<&'a [u8], Target>,
    name: &'a [u8],
    target: Target,
) -> Result<bool, AllocError>
    ensures free { IfOk result (λ free. free ≡ is_free (seen table.old name.now)) }
    ensures given { IfOk result (λ free. IsTrue free → (other : List ℕ) → seen table.new other ≡ cond (bytes_eq name.now other) (Some target) (seen table.old other)) }
{
    if table.contains_key(&name) {
        return Ok(false);
    }
    set(table, name, target)?;
    Ok(true)
}

fn set<'a>(
    table: &mut HashMap<&'a [u8], Target>,
    name: &'a [u8],
    target: Target,
) -> Result<(), AllocError>
    ensures { OnOk result ((other : List ℕ) → seen table.new other ≡ cond (bytes_eq name.now other) (Some target) (seen table.old other)) }
{
    let _ = table.insert(name, target)?;
    Ok(())
}

/// The bytes of a symbol of a text.
fn symbol_name<'a>(texts: &'a [Checked], text: usize, symbol: usize) -> &'a [u8]
    ensures { result.now ≡ symbol_name texts.now text symbol }
{
    match texts.get(text) {
        Some(checked) => name_at(checked.text.symbols.as_slice(), symbol),
        None => &[],
    }
}

fn name_at(symbols: &[Name], symbol: usize) -> &[u8]
    ensures { result.now ≡ slice_index_or symbols.now symbol [] }
{
    match symbols.get(symbol) {
        Some(name) => name.as_slice(),
        None => &[],
    }
}
