//! Where a text first mentions a global name.
use crate::place::{Step, steps};
use il_ast::{DataDef, Definition, Field, Item, Symbol, Text, Val};
use std::alloc::{AllocError, Global};

/// The number of a name in a text, where the text mentions it.
pub fn symbol_in(text: &Text, name: &[u8]) -> Option<Symbol> {
    let mut symbols = text.symbols.as_slice().iter();
    let number = symbols.position(|other| other.as_slice() == name)?;
    Some(Symbol::at(number))
}

/// The line of the first definition that mentions a name besides its own; within a function that of the value.
pub fn line_in(alloc: Global, text: &Text, symbol: Symbol) -> Result<Option<usize>, AllocError> {
    for definition in text.definitions.as_slice() {
        let found = match definition {
            Definition::Function(function) => {
                let steps = steps(alloc, function)?;
                read_in(steps.as_slice(), Val::Global(symbol))
            }
            Definition::Object(object) => has_address(object, symbol).then_some(object.line),
        };
        if found.is_some() {
            return Ok(found);
        }
    }
    Ok(None)
}

/// The line that first reads a value, or else the one that first returns it.
fn read_in(steps: &[Step], wanted: Val) -> Option<usize> {
    let found = steps.iter().find(|step| step.read_within() == Some(wanted));
    let found = found.or_else(|| steps.iter().find(|step| step.read() == Some(wanted)));
    Some(found?.line)
}

fn has_address(object: &DataDef, name: Symbol) -> bool {
    object.fields.as_slice().iter().any(|field| match field {
        Field::Items { items, .. } => items.as_slice().iter().any(|item| is_address(item, name)),
        Field::Zeros(_) => false,
    })
}

fn is_address(item: &Item, name: Symbol) -> bool {
    matches!(item, Item::Address { symbol, .. } if *symbol == name)
}
