//! Whether data hold no function but one that may be called by pointer.
ghost use Rattle.std.specs.Prelude.{◌≡◌, map};
ghost use Rattle.std.specs.List.{list_all};
ghost use Rattle.obj_link.specs.Prelude.{program, shown};
ghost use Rattle.stack_bound.specs.Bounds.{field_fits, item_fits, object_fits};

use crate::bounds::Bounds;
use crate::names::names_in;
use crate::values::name_fits;
use il_ast::{DataDef, Field, InText, Item, Target};
use obj_link::Linked;

fn item_fits(linked: &Linked<'_>, bounds: &Bounds, names: &[Target], item: &Item) -> bool
    ensures { result ≡ item_fits (program linked.now) bounds.now names.now item.now }
{
    match item {
        Item::Address { symbol, .. } => {
            name_fits(linked, bounds, names.get(symbol.number()).copied())
        }
        Item::Int(_) | Item::Bytes(_) => true,
    }
}

fn items_fit(linked: &Linked<'_>, bounds: &Bounds, names: &[Target], items: &[Item]) -> bool
    ensures { result ≡ list_all (item_fits (program linked.now) bounds.now names.now) items.now }
{
    items
        .iter()
        .all(|item| item_fits(linked, bounds, names, item))
}

fn field_fits(linked: &Linked<'_>, bounds: &Bounds, names: &[Target], field: &Field) -> bool
    ensures { result ≡ field_fits (program linked.now) bounds.now names.now field.now }
{
    match field {
        Field::Items { items, .. } => items_fit(linked, bounds, names, items.as_slice()),
        Field::Zeros(_) => true,
    }
}

fn fields_fit(linked: &Linked<'_>, bounds: &Bounds, names: &[Target], fields: &[Field]) -> bool
    ensures { result ≡ list_all (field_fits (program linked.now) bounds.now names.now) fields.now }
{
    fields
        .iter()
        .all(|field| field_fits(linked, bounds, names, field))
}

/// Whether all these data do so.
pub(crate) fn objects_fit(
    linked: &Linked<'_>,
    bounds: &Bounds,
    objects: &[InText<&DataDef>],
) -> bool
    ensures { result ≡ list_all (object_fits (program linked.now) bounds.now) (map shown objects.now) }
{
    for object in objects {
        let names = names_in(linked, object.text);
        if !fields_fit(linked, bounds, names, object.item.fields.as_slice()) {
            return false;
        }
    }
    true
}
