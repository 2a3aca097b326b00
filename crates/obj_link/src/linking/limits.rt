//! The limits over all texts of a program.
ghost use Rattle.std.specs.Prelude.{◌≡◌, map, sum_by};
ghost use Rattle.il_ast.specs.Prelude.{byte_count};
ghost use Rattle.il_types.specs.Prelude.{capped};
ghost use Rattle.obj_link.specs.Prelude.{shown, item_size, field_size, object_size, total_weight, total_size, within_limits};

use il_ast::limits::{DATA_BYTES, FUNCTIONS, PROGRAM_WEIGHT, TEXTS};
use il_ast::{DataDef, Field, Func, InText, Item, Size};
use il_types::Checked;
use il_types::cost::weight;

/// Whether a program passes no limit over all its texts.
pub fn within_limits(
    texts: &[Checked],
    functions: &[InText<&Func>],
    objects: &[InText<&DataDef>],
) -> bool
    ensures { result ≡ within_limits texts.now (map shown functions.now) (map shown objects.now) }
{
    texts.len() <= TEXTS
        && (functions.len() <= FUNCTIONS
            && (total_weight(functions) <= PROGRAM_WEIGHT && total_size(objects) <= DATA_BYTES))
}

fn total_weight(functions: &[InText<&Func>]) -> u64
    ensures { result ≡ capped (total_weight (map shown functions.now)) }
{
    let mut total: u64 = 0;
    for function in functions {
        total = total.saturating_add(weight(function.item));
    }
    total
}

fn total_size(objects: &[InText<&DataDef>]) -> u64
    ensures { result ≡ capped (total_size (map shown objects.now)) }
{
    let mut total: u64 = 0;
    for object in objects {
        let slots = object_size(object.item).div_ceil(16);
        total = total.saturating_add(slots.saturating_mul(16));
    }
    total
}

/// How many bytes a datum has; a number that would pass 64 bits stays at the largest one.
pub fn object_size(object: &DataDef) -> u64
    ensures { result ≡ capped (object_size object.now) }
{
    let mut total: u64 = 0;
    let fields = object.fields.as_slice();
    for field in fields {
        total = total.saturating_add(field_size(field));
    }
    total
}

fn field_size(field: &Field) -> u64
    ensures { result ≡ capped (field_size field.now) }
{
    match field {
        Field::Items { size, items } => items_size(*size, items.as_slice()),
        Field::Zeros(count) => *count,
    }
}

fn items_size(size: Size, items: &[Item]) -> u64
    ensures { result ≡ capped (sum_by (item_size size) items.now) }
{
    let mut total: u64 = 0;
    for item in items {
        total = total.saturating_add(item_size(size, item));
    }
    total
}

fn item_size(size: Size, item: &Item) -> u64
    ensures { result ≡ item_size size item.now }
{
    match item {
        Item::Int(_) => byte_count(size),
        Item::Bytes(bytes) => bytes.len() as u64,
        Item::Address { .. } => 8,
    }
}

fn byte_count(size: Size) -> u64
    ensures { result ≡ byte_count size }
{
    match size {
        Size::Byte => 1,
        Size::Half => 2,
        Size::Word => 4,
        Size::Long => 8,
    }
}
