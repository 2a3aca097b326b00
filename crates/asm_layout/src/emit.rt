//! The words and holes of items.

ghost use Rattle.std.specs.Prelude.{◌≡◌, ◌+◌, ◌^◌, ◌<◌, ◌≤◌, ◌++◌, drop, length, OnOk};
ghost use Rattle.rv_isa.specs.Prelude.{longest_size};
ghost use Rattle.asm_layout.specs.Forms.{item_words, words_with, item_holes, holes_with, no_address, ItemFits, AllFit};

use crate::jump::{push_branch, push_jump};
use crate::places::place_of;
use crate::reach::reach_of;
use crate::sizes::{longest, size};
use rv_isa::encode::encode;
use rv_isa::{Filling, Hole, Item};
use std::alloc::AllocError;

/// `here` is the item's place in the longest form.
fn push_item(
    words: &mut Vec<u32>,
    far: &[usize],
    places: &[usize],
    here: usize,
    item: &Item,
) -> Result<(), AllocError>
    requires fits { ItemFits far.now places.now here (length words.old.items) item.now }
    requires near { length words.old.items < 2 ^ 28 }
    ensures { OnOk result (words.new.items ≡ words.old.items ++ item_words far.now places.now no_address here (length words.old.items) item.now) }
{
    let place = words.len();
    match item {
        Item::Plain(instr) => words.push(encode(*instr))?,
        Item::Label(_) => {}
        Item::Branch {
            op,
            rs1,
            rs2,
            label,
        } => {
            let reach = reach_of(here, place_of(far, *label));
            push_branch(
                words,
                reach,
                *op,
                *rs1,
                *rs2,
                place,
                place_of(places, *label),
            )?;
        }
        Item::Goto(label) => {
            let reach = reach_of(here, place_of(far, *label));
            push_jump(words, reach, place, place_of(places, *label))?;
        }
        Item::Call(global) => words.push(Filling::Call(*global).word(0, 0))?,
        Item::Relocated(relocation) => words.push(Filling::Part(*relocation).word(0, 0))?,
    }
    Ok(())
}

/// Puts the words of items at the end, for labels at `places` in the forms that are chosen by the places `far`.
pub fn push_words(
    words: &mut Vec<u32>,
    far: &[usize],
    places: &[usize],
    items: &[Item],
) -> Result<(), AllocError>
    requires start { length words.old.items ≡ 0 }
    requires fits { AllFit far.now places.now 0 0 items.now }
    requires near { longest_size items.now < 2 ^ 28 }
    ensures { OnOk result (words.new.items ≡ words_with far.now places.now no_address 0 words.old.items items.now) }
{
    let mut here: usize = 0;
    for item in items {
        push_item(words, far, places, here, item)?;
        here += longest(item);
    }
    Ok(())
}

fn push_hole(holes: &mut Vec<Hole>, place: usize, item: &Item) -> Result<(), AllocError>
    ensures { OnOk result (holes.new.items ≡ holes.old.items ++ item_holes place item.now) }
{
    let filling = match item {
        Item::Call(global) => Filling::Call(*global),
        Item::Relocated(relocation) => Filling::Part(*relocation),
        Item::Plain(_) | Item::Label(_) | Item::Branch { .. } | Item::Goto(_) => return Ok(()),
    };
    holes.push(Hole {
        word: place,
        filling,
    })?;
    Ok(())
}

/// Puts the holes of items at the end, for the forms that are chosen by the places `far`.
pub fn push_holes(holes: &mut Vec<Hole>, far: &[usize], items: &[Item]) -> Result<(), AllocError>
    requires near { longest_size items.now < 2 ^ 28 }
    ensures { OnOk result (holes.new.items ≡ holes_with far.now 0 0 holes.old.items items.now) }
{
    let mut here: usize = 0;
    let mut place: usize = 0;
    for item in items {
        push_hole(holes, place, item)?;
        place += size(far, here, item);
        here += longest(item);
    }
    Ok(())
}
