//! Code with marks.
ghost use Rattle.il_ast.specs.declared.limits.TheConstants.{ALLOC_BYTES};
ghost use Rattle.std.specs.Prelude.{◌≡◌, ◌+◌, ◌^◌, ◌<◌, ◌≤◌, IsTrue, [], ◌∷◌, ◌++◌, length, OnOk};
ghost use Rattle.std.specs.List.{list_all, sum_by};
ghost use Rattle.rv_isa.specs.declared.labelled.Item.TheVariants.{Label};
ghost use Rattle.vcode.specs.Prelude.{alloc_bytes, passes_few};
ghost use Rattle.frame_ways.specs.Plans.{mark_at};
ghost use Rattle.abi_frames.specs.Emission.{body_items, rows, prologue};
ghost use Rattle.abi_frames.specs.Functions.{bare_layout, outer_layout, part_items, marked_body, ends_items, marked_items};

use crate::ends::{push_epilogue, push_prologue};
use crate::entry::push_entry;
use crate::frame::push_body;
use crate::layout::Layout;
use frame_ways::mark::Mark;
use rv_isa::Item;
use std::alloc::AllocError;
use vcode::{Block, Destination, Location};

/// Where there is no frame, and each return goes back.
pub(crate) fn bare_layout(layout: &Layout) -> Layout
    ensures { result ≡ bare_layout layout.now }
{
    Layout {
        saves: 0,
        slots: 0,
        area: 0,
        size: 0,
        result: layout.result,
        leave: layout.leave,
        falls: layout.falls,
    }
}

/// Beside a frame, whose end stands before the other end.
fn outer_layout(layout: &Layout) -> Layout
    requires { layout.now.leave + 1 < 2 ^ 64 }
    ensures { result ≡ outer_layout layout.now }
{
    let mut outer = bare_layout(layout);
    outer.leave = layout.leave + 1;
    outer
}

fn mark_at(marks: &[Mark], number: usize) -> Mark
    ensures { result ≡ mark_at marks.now number }
{
    match marks.get(number) {
        Some(mark) => *mark,
        None => Mark::Framed,
    }
}

/// A block without a frame.
fn push_bare(
    items: &mut Vec<Item>,
    outer: &Layout,
    number: usize,
    block: &Block<Location>,
) -> Result<(), AllocError>
    requires room { sum_by alloc_bytes block.now.lines ≤ ALLOC_BYTES }
    requires few { IsTrue (list_all passes_few block.now.lines) }
    requires not_last { number + 1 < 2 ^ 64 }
    ensures { OnOk result (items.new.items ≡ items.old.items ++ body_items outer.now [] number block.now) }
{
    let none: [u8; 0] = [];
    push_body(items, outer, none.as_slice(), number + 1, block)
}

/// The begin of the frame, and what stands behind it.
fn push_begin(
    items: &mut Vec<Item>,
    layout: &Layout,
    saved: &[u8],
    number: usize,
    block: &Block<Location>,
) -> Result<(), AllocError>
    requires room { sum_by alloc_bytes block.now.lines ≤ ALLOC_BYTES }
    requires few { IsTrue (list_all passes_few block.now.lines) }
    requires few_saved { length saved.now ≤ 13 }
    requires not_last { number + 1 < 2 ^ 64 }
    ensures { OnOk result (items.new.items ≡ items.old.items ++ (prologue layout.now saved.now ++ body_items layout.now saved.now number block.now)) }
{
    push_prologue(items, layout, saved)?;
    push_body(items, layout, saved, number + 1, block)
}

/// A block, as its mark says.
fn push_part(
    items: &mut Vec<Item>,
    layout: &Layout,
    outer: &Layout,
    saved: &[u8],
    mark: Mark,
    number: usize,
    block: &Block<Location>,
) -> Result<(), AllocError>
    requires room { sum_by alloc_bytes block.now.lines ≤ ALLOC_BYTES }
    requires few { IsTrue (list_all passes_few block.now.lines) }
    requires few_saved { length saved.now ≤ 13 }
    requires not_last { number + 1 < 2 ^ 64 }
    requires beside { outer.now ≡ outer_layout layout.now }
    ensures { OnOk result (items.new.items ≡ items.old.items ++ part_items layout.now saved.now mark number block.now) }
{
    match mark {
        Mark::Bare => push_bare(items, outer, number, block),
        Mark::Begin => push_begin(items, layout, saved, number, block),
        Mark::Framed => push_body(items, layout, saved, number + 1, block),
    }
}

/// The same behind its label.
fn push_labelled(
    items: &mut Vec<Item>,
    layout: &Layout,
    outer: &Layout,
    saved: &[u8],
    mark: Mark,
    number: usize,
    block: &Block<Location>,
) -> Result<(), AllocError>
    requires room { sum_by alloc_bytes block.now.lines ≤ ALLOC_BYTES }
    requires few { IsTrue (list_all passes_few block.now.lines) }
    requires few_saved { length saved.now ≤ 13 }
    requires not_last { number + 1 < 2 ^ 64 }
    requires beside { outer.now ≡ outer_layout layout.now }
    ensures { OnOk result (items.new.items ≡ items.old.items ++ (Label number ∷ part_items layout.now saved.now mark number block.now)) }
{
    items.push(Item::Label(number))?;
    push_part(items, layout, outer, saved, mark, number, block)
}

fn push_parts(
    items: &mut Vec<Item>,
    layout: &Layout,
    outer: &Layout,
    saved: &[u8],
    marks: &[Mark],
    blocks: &[Block<Location>],
) -> Result<(), AllocError>
    requires room { sum_by (λ b. sum_by alloc_bytes b.lines) blocks.now ≤ ALLOC_BYTES }
    requires calls { IsTrue (list_all (λ b. list_all passes_few b.lines) blocks.now) }
    requires few_saved { length saved.now ≤ 13 }
    requires beside { outer.now ≡ outer_layout layout.now }
    ensures { OnOk result (items.new.items ≡ items.old.items ++ rows (λ l. l) (marked_body layout.now saved.now marks.now) 0 blocks.now) }
{
    for (number, block) in blocks.iter().enumerate() {
        let mark = mark_at(marks, number);
        push_labelled(items, layout, outer, saved, mark, number, block)?;
    }
    Ok(())
}

/// The end of the frame, and that of ways without one.
fn push_ends(
    items: &mut Vec<Item>,
    layout: &Layout,
    outer: &Layout,
    saved: &[u8],
) -> Result<(), AllocError>
    requires few_saved { length saved.now ≤ 13 }
    requires small { layout.now.leave + 1 < 2 ^ 64 }
    requires beside { outer.now ≡ outer_layout layout.now }
    ensures { OnOk result (items.new.items ≡ items.old.items ++ ends_items layout.now saved.now) }
{
    let none: [u8; 0] = [];
    push_epilogue(items, layout, saved)?;
    items.push(Item::Label(outer.leave))?;
    push_epilogue(items, outer, none.as_slice())
}

/// The machine code of code with marks.
pub(crate) fn push_marked(
    items: &mut Vec<Item>,
    layout: &Layout,
    saved: &[u8],
    params: &[Destination<Location>],
    marks: &[Mark],
    blocks: &[Block<Location>],
) -> Result<(), AllocError>
    requires room { sum_by (λ b. sum_by alloc_bytes b.lines) blocks.now ≤ ALLOC_BYTES }
    requires calls { IsTrue (list_all (λ b. list_all passes_few b.lines) blocks.now) }
    requires few { length params.now ≤ 64 }
    requires few_saved { length saved.now ≤ 13 }
    requires small { layout.now.leave + 1 < 2 ^ 64 }
    ensures { OnOk result (items.new.items ≡ items.old.items ++ marked_items layout.now saved.now params.now marks.now blocks.now) }
{
    let outer = outer_layout(layout);
    push_entry(items, &outer, params)?;
    push_parts(items, layout, &outer, saved, marks, blocks)?;
    items.push(Item::Label(layout.leave))?;
    push_ends(items, layout, &outer, saved)?;
    Ok(())
}
