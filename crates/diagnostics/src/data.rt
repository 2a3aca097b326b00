//! What is wrong with global names and with data.
use crate::definition::{definition_at, line_of, symbol_of};
use crate::name::{Count, global};
use il_ast::{DataDef, Definition, Field, Item, Size, Text};
use text_maker::{TextMaker, say};

/// A name that is defined twice in a text.
pub fn add_repeated_global(words: &mut TextMaker, text: &Text, line: usize) {
    if let Some(definition) = definition_at(text, line) {
        let symbol = symbol_of(definition);
        let mut others = text.definitions.as_slice().iter();
        let other = others.find(|other| symbol_of(other) == symbol && line_of(other) != line);
        let at = other.map_or(line, |other| line_of(other));
        say!(words; "{} is defined here and at line {at}", global(text, symbol));
    }
}

/// A datum with an item that doesn't fit its field, or without a byte.
pub fn add_wrong_fields(words: &mut TextMaker, text: &Text, line: usize) {
    if let Some(Definition::Object(object)) = definition_at(text, line) {
        let name = global(text, object.name);
        match misfit(object) {
            Some(Item::Address { symbol, .. }) => {
                let other = global(text, *symbol);
                say!(words; "{name} has the name {other} in a field that isn't of l");
            }
            Some(_) => say!(words; "{name} has a string in a field that isn't of b"),
            None => say!(words; "{name} has no byte"),
        }
    }
}

/// The first item of a datum that doesn't fit its field.
fn misfit(object: &DataDef) -> Option<&Item> {
    let mut fields = object.fields.as_slice().iter();
    fields.find_map(|field| match field {
        Field::Items { size, items } => items.as_slice().iter().find(|item| match item {
            Item::Bytes(_) => *size != Size::Byte,
            Item::Address { .. } => *size != Size::Long,
            Item::Int(_) => false,
        }),
        Field::Zeros(_) => None,
    })
}

pub fn add_wrong_alignment(words: &mut TextMaker, text: &Text, line: usize) {
    if let Some(Definition::Object(object)) = definition_at(text, line) {
        let name = global(text, object.name);
        let alignment = Count(object.alignment);
        say!(words; "{name} is aligned to {alignment}, and not to 1, 2, 4, 8 or 16");
    }
}

/// Whether a datum has an item that doesn't fit its field, or no byte.
pub fn has_wrong_fields(object: &DataDef) -> bool {
    let mut fields = object.fields.as_slice().iter();
    misfit(object).is_some() || !fields.any(|field| has_bytes(field))
}

fn has_bytes(field: &Field) -> bool {
    match field {
        Field::Zeros(count) => *count > 0,
        Field::Items { items, .. } => items.as_slice().iter().any(|item| match item {
            Item::Bytes(bytes) => bytes.len() > 0,
            _ => true,
        }),
    }
}

/// Whether a datum is aligned to what it may not be.
pub fn has_wrong_alignment(object: &DataDef) -> bool {
    !matches!(object.alignment, 1 | 2 | 4 | 8 | 16)
}
