//! What each symbol of each text means.
ghost use Rattle.std.specs.Prelude.{◌≡◌, Some, MatchResult};
ghost use Rattle.obj_link.specs.Prelude.{symbols_by, targets_by, meaning_in, RefusesSymbols, RefusesNames};

use crate::linking::error::LinkError;
use il_ast::{Name, Seq, Target};
use il_types::Checked;
use std::alloc::{AllocError, Global};
use std::collections::HashMap;

/// What each symbol of each text means: what the text defines it as, or else what its name is
/// exported as.
///
/// `LinkError::UnknownName` names one that has neither.
pub fn targets<'a>(
    alloc: Global,
    texts: &'a [Checked],
    owned: &HashMap<(usize, usize), Target>,
    exports: &HashMap<&[u8], Target>,
) -> Result<Vec<Seq<Target>>, LinkError<'a>>
    ensures { MatchResult result (λ found. targets_by (meaning_in owned.now exports.now) 0 texts.now ≡ Some found.items) (λ error. RefusesNames error (meaning_in owned.now exports.now) texts.now) }
{
    let mut found = Vec::new(alloc);
    for (text, checked) in texts.iter().enumerate() {
        let symbols = checked.text.symbols.as_slice();
        match symbol_targets(alloc, text, symbols, owned, exports) {
            Ok(targets) => found
                .push(Seq::from_vec(targets))
                .map_err(AllocError::from)?,
            Err(error) => return Err(error),
        }
    }
    Ok(found)
}

/// What each symbol of a text means.
fn symbol_targets<'a>(
    alloc: Global,
    text: usize,
    symbols: &'a [Name],
    owned: &HashMap<(usize, usize), Target>,
    exports: &HashMap<&[u8], Target>,
) -> Result<Vec<Target>, LinkError<'a>>
    ensures { MatchResult result (λ found. symbols_by (meaning_in owned.now exports.now text) 0 symbols.now ≡ Some found.items) (λ error. RefusesSymbols error (meaning_in owned.now exports.now text) symbols.now) }
{
    let mut found = Vec::new(alloc);
    for (symbol, name) in symbols.iter().enumerate() {
        match target_of(text, symbol, name.as_slice(), owned, exports) {
            Some(target) => found.push(target).map_err(AllocError::from)?,
            None => return Err(LinkError::UnknownName(name.as_slice())),
        }
    }
    Ok(found)
}

/// What a symbol of a text means that has this name.
fn target_of(
    text: usize,
    symbol: usize,
    name: &[u8],
    owned: &HashMap<(usize, usize), Target>,
    exports: &HashMap<&[u8], Target>,
) -> Option<Target>
    ensures { result ≡ meaning_in owned.now exports.now text symbol name.now }
{
    match owned.get(&(text, symbol)) {
        Some(target) => Some(*target),
        None => exports.get(&name).copied(),
    }
}
