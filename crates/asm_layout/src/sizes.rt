//! How many words items take.

ghost use Rattle.std.specs.Prelude.{◌≡◌};
ghost use Rattle.rv_isa.specs.Prelude.{longest};
ghost use Rattle.asm_layout.specs.Forms.{jump_size, branch_size, size};

use crate::places::place_of;
use crate::reach::{Reach, reach_of};
use rv_isa::Item;

/// The most words that an item takes.
pub fn longest(item: &Item) -> usize
    ensures { result ≡ longest item.now }
{
    match item {
        Item::Plain(_) => 1,
        Item::Label(_) => 0,
        Item::Branch { .. } => 3,
        Item::Goto(_) | Item::Call(_) => 2,
        Item::Relocated(_) => 1,
    }
}

fn jump_size(reach: Reach) -> usize
    ensures { result ≡ jump_size reach }
{
    match reach {
        Reach::Short | Reach::Middle => 1,
        Reach::Far => 2,
    }
}

fn branch_size(reach: Reach) -> usize
    ensures { result ≡ branch_size reach }
{
    match reach {
        Reach::Short => 1,
        Reach::Middle => 2,
        Reach::Far => 3,
    }
}

/// How many words an item takes, which would stand at `here` in the longest form, with labels at the places `far`.
pub fn size(far: &[usize], here: usize, item: &Item) -> usize
    ensures { result ≡ size far.now here item.now }
{
    match item {
        Item::Plain(_) => 1,
        Item::Label(_) => 0,
        Item::Branch { label, .. } => branch_size(reach_of(here, place_of(far, *label))),
        Item::Goto(label) => jump_size(reach_of(here, place_of(far, *label))),
        Item::Call(_) | Item::Relocated(_) => 1,
    }
}
