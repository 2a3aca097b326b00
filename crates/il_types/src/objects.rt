//! The rules on data: data fields, alignment.
ghost use Rattle.std.specs.Prelude.{◌≡◌};
ghost use Rattle.std.specs.List.{list_any};
ghost use Rattle.il_types.specs.Prelude.{is_misfit, has_misfit, takes_bytes, has_bytes, wrong_fields, is_alignment, wrong_alignment};

use il_ast::{DataDef, Field, Item, Size};

/// The line of a datum with an item that doesn't fit its field, or without a byte.
pub fn wrong_fields(object: &DataDef) -> Option<usize>
    ensures { result ≡ wrong_fields object.now }
{
    let fields = object.fields.as_slice();
    if any_misfit(fields) || !any_bytes(fields) {
        Some(object.line)
    } else {
        None
    }
}

fn any_misfit(fields: &[Field]) -> bool
    ensures { result ≡ list_any has_misfit fields.now }
{
    for field in fields {
        if has_misfit(field) {
            return true;
        }
    }
    false
}

fn has_misfit(field: &Field) -> bool
    ensures { result ≡ has_misfit field.now }
{
    match field {
        Field::Items { size, items } => any_item_misfit(*size, items.as_slice()),
        Field::Zeros(_) => false,
    }
}

fn any_item_misfit(size: Size, items: &[Item]) -> bool
    ensures { result ≡ list_any (is_misfit size) items.now }
{
    for item in items {
        if is_misfit(size, item) {
            return true;
        }
    }
    false
}

fn is_misfit(size: Size, item: &Item) -> bool
    ensures { result ≡ is_misfit size item.now }
{
    match item {
        Item::Int(_) => false,
        Item::Bytes(_) => match size {
            Size::Byte => false,
            Size::Half | Size::Word | Size::Long => true,
        },
        Item::Address { .. } => match size {
            Size::Long => false,
            Size::Byte | Size::Half | Size::Word => true,
        },
    }
}

fn any_bytes(fields: &[Field]) -> bool
    ensures { result ≡ list_any has_bytes fields.now }
{
    for field in fields {
        if has_bytes(field) {
            return true;
        }
    }
    false
}

fn has_bytes(field: &Field) -> bool
    ensures { result ≡ has_bytes field.now }
{
    match field {
        Field::Items { size: _, items } => any_takes_bytes(items.as_slice()),
        Field::Zeros(count) => *count > 0,
    }
}

fn any_takes_bytes(items: &[Item]) -> bool
    ensures { result ≡ list_any takes_bytes items.now }
{
    for item in items {
        if takes_bytes(item) {
            return true;
        }
    }
    false
}

fn takes_bytes(item: &Item) -> bool
    ensures { result ≡ takes_bytes item.now }
{
    match item {
        Item::Int(_) | Item::Address { .. } => true,
        Item::Bytes(bytes) => bytes.len() > 0,
    }
}

/// The line of a datum whose alignment isn't 1, 2, 4, 8 or 16.
pub fn wrong_alignment(object: &DataDef) -> Option<usize>
    ensures { result ≡ wrong_alignment object.now }
{
    let alignment = object.alignment;
    if is_alignment(alignment) {
        None
    } else {
        Some(object.line)
    }
}

fn is_alignment(number: u64) -> bool
    ensures { result ≡ is_alignment number }
{
    number == 1 || number == 2 || number == 4 || number == 8 || number == 16
}
