//! Where labels stand.

ghost use Rattle.std.specs.Prelude.{◌≡◌, ◌+◌, ◌^◌, ◌<◌, ◌≤◌, drop, length, replicate, slice_index, slice_set, IfOk};
ghost use Rattle.rv_isa.specs.Prelude.{longest_size};
ghost use Rattle.asm_layout.specs.Forms.{marked, longest_places, chosen_places};

use crate::sizes::{longest, size};
use rv_isa::Item;
use std::alloc::{AllocError, Global};

/// The place of a label.
pub fn place_of(places: &[usize], label: usize) -> usize
    ensures { result ≡ slice_index places.now label }
{
    match places.get(label) {
        Some(place) => *place,
        None => 0,
    }
}

fn set(places: &mut [usize], label: usize, here: usize)
    ensures { places.new ≡ slice_set places.old label here }
{
    if label < places.len() {
        places[label] = here;
    }
}

fn mark(places: &mut [usize], here: usize, item: &Item)
    ensures { places.new ≡ marked places.old here item.now }
{
    if let Item::Label(label) = item {
        set(places, *label, here);
    }
}

fn mark_longest(places: &mut [usize], items: &[Item])
    requires { longest_size items.now < 2 ^ 28 }
    ensures { places.new ≡ longest_places 0 places.old items.now }
{
    let mut here: usize = 0;
    for item in items {
        mark(places, here, item);
        here += longest(item);
    }
}

/// Where labels would stand if each item took its longest form.
pub fn longest_places(
    alloc: Global,
    labels: usize,
    items: &[Item],
) -> Result<Vec<usize>, AllocError>
    requires { longest_size items.now < 2 ^ 28 }
    ensures { IfOk result (λ v. v.items ≡ longest_places 0 (replicate labels 0) items.now) }
{
    let mut places = vec![in alloc; 0; labels]?;
    mark_longest(places.as_mut_slice(), items);
    Ok(places)
}

fn mark_chosen(far: &[usize], places: &mut [usize], items: &[Item])
    requires { longest_size items.now < 2 ^ 28 }
    ensures { places.new ≡ chosen_places far.now 0 0 places.old items.now }
{
    let mut here: usize = 0;
    let mut place: usize = 0;
    for item in items {
        mark(places, place, item);
        place += size(far, here, item);
        here += longest(item);
    }
}

/// Where labels stand in the forms that are chosen by the places `far`.
pub fn chosen_places(
    alloc: Global,
    labels: usize,
    far: &[usize],
    items: &[Item],
) -> Result<Vec<usize>, AllocError>
    requires { longest_size items.now < 2 ^ 28 }
    ensures { IfOk result (λ v. v.items ≡ chosen_places far.now 0 0 (replicate labels 0) items.now) }
{
    let mut places = vec![in alloc; 0; labels]?;
    mark_chosen(far, places.as_mut_slice(), items);
    Ok(places)
}
