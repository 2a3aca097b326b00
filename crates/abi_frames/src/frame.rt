//! Functions with their frames.
ghost use Rattle.il_ast.specs.declared.limits.TheConstants.{ALLOC_BYTES};
ghost use Rattle.std.specs.Prelude.{◌≡◌, ◌+◌, ◌*◌, ◌^◌, ◌<◌, ◌≤◌, IsTrue, ◌∷◌, ◌++◌, length, nat_le, OnOk, IfOk, IfSome};
ghost use Rattle.rv_isa.specs.Prelude.{longest_size};
ghost use Rattle.std.specs.List.{list_all, sum_by};
ghost use Rattle.vcode.specs.Prelude.{area, alloc_bytes, turns_of, passes_few, code_weight};
ghost use Rattle.abi_frames.specs.Performs.{layout, outgoing, saved_registers, frame_size, frame_bound};
ghost use Rattle.abi_frames.specs.Emission.{left_behind, lines_items, jump_items, epilogue, block_items, blocks_items};
ghost use Rattle.abi_frames.specs.Functions.{function_items, frame_items, marked_code, IsFrameOf};
ghost use Rattle.rv_isa.specs.declared.labelled.Item.TheVariants.{Label};
ghost use Rattle.vcode.specs.declared.limits.TheConstants.{PLACES};
ghost use Rattle.abi_frames.specs.declared.pace.TheConstants.{TURN_BOUND};
ghost use Rattle.frame_ways.specs.Plans.{IsMarked};
ghost use Rattle.frame_ways.specs.Keeping.{IsMarkedOf};

use crate::ends::{push_epilogue, push_prologue};
use crate::entry::push_entry;
use crate::jump::push_jump;
use crate::layout::Layout;
use crate::line::push_lines;
use crate::marks::push_marked;
use crate::price::{is_within, price};
use crate::room::{area_of, outgoing_of};
use crate::saved::saved_registers;
use crate::turns::falls_through;
use flat_code::function::FlatFunc;
use frame_ways::mark::Marked;
use frame_ways::ways::ways;
use rv_isa::{Item, LabelledCode};
use std::alloc::{AllocError, Global};
use vcode::{Block, Code, Destination, Location};

pub(crate) fn push_body(
    items: &mut Vec<Item>,
    layout: &Layout,
    saved: &[u8],
    next: usize,
    block: &Block<Location>,
) -> Result<(), AllocError>
    requires room { sum_by alloc_bytes block.now.lines ≤ ALLOC_BYTES }
    requires few { IsTrue (list_all passes_few block.now.lines) }
    requires few_saved { length saved.now ≤ 13 }
    ensures { OnOk result (items.new.items ≡ items.old.items ++ (lines_items layout.now 0 block.now.lines ++ jump_items layout.now saved.now next (left_behind 0 block.now.lines) block.now.jump)) }
{
    push_lines(items, layout, block.lines.as_slice())?;
    push_jump(
        items,
        layout,
        saved,
        next,
        block.lines.as_slice(),
        &block.jump,
    )
}

fn push_block(
    items: &mut Vec<Item>,
    layout: &Layout,
    saved: &[u8],
    label: usize,
    block: &Block<Location>,
) -> Result<(), AllocError>
    requires room { sum_by alloc_bytes block.now.lines ≤ ALLOC_BYTES }
    requires few { IsTrue (list_all passes_few block.now.lines) }
    requires few_saved { length saved.now ≤ 13 }
    requires not_last { label + 1 < 2 ^ 64 }
    ensures { OnOk result (items.new.items ≡ items.old.items ++ block_items layout.now saved.now label block.now) }
{
    items.push(Item::Label(label))?;
    push_body(items, layout, saved, label + 1, block)
}

fn push_blocks(
    items: &mut Vec<Item>,
    layout: &Layout,
    saved: &[u8],
    blocks: &[Block<Location>],
) -> Result<(), AllocError>
    requires room { sum_by (λ b. sum_by alloc_bytes b.lines) blocks.now ≤ ALLOC_BYTES }
    requires calls { IsTrue (list_all (λ b. list_all passes_few b.lines) blocks.now) }
    requires few_saved { length saved.now ≤ 13 }
    ensures { OnOk result (items.new.items ≡ items.old.items ++ blocks_items layout.now saved.now 0 blocks.now) }
{
    for (label, block) in blocks.iter().enumerate() {
        push_block(items, layout, saved, label, block)?;
    }
    Ok(())
}

fn push_end(items: &mut Vec<Item>, layout: &Layout, saved: &[u8]) -> Result<(), AllocError>
    requires few { length saved.now ≤ 13 }
    ensures { OnOk result (items.new.items ≡ items.old.items ++ (Label layout.now.leave ∷ epilogue layout.now saved.now)) }
{
    items.push(Item::Label(layout.leave))?;
    push_epilogue(items, layout, saved)?;
    Ok(())
}

fn push_function(
    items: &mut Vec<Item>,
    layout: &Layout,
    saved: &[u8],
    params: &[Destination<Location>],
    blocks: &[Block<Location>],
) -> Result<(), AllocError>
    requires room { sum_by (λ b. sum_by alloc_bytes b.lines) blocks.now ≤ ALLOC_BYTES }
    requires calls { IsTrue (list_all (λ b. list_all passes_few b.lines) blocks.now) }
    requires few { length params.now ≤ 64 }
    requires few_saved { length saved.now ≤ 13 }
    ensures { OnOk result (items.new.items ≡ items.old.items ++ function_items layout.now saved.now params.now blocks.now) }
{
    push_prologue(items, layout, saved)?;
    push_entry(items, layout, params)?;
    push_blocks(items, layout, saved, blocks)?;
    push_end(items, layout, saved)?;
    Ok(())
}

#[tactic(auto, using(crate::proofs::Saving::few_saved_registers))]
fn layout_of(code: &Code<Location>, slots: u32, saved: &[u8]) -> Layout
    requires registers { saved.now ≡ saved_registers code.now }
    requires places { slots < PLACES }
    requires few { outgoing code.now ≤ 56 }
    requires small { area code.now ≤ ALLOC_BYTES }
    requires paced { IsTrue (list_all (λ b. nat_le (sum_by turns_of b.lines) TURN_BOUND) code.now.blocks) }
    ensures value { result ≡ layout code.now slots }
{
    let area = area_of(code);
    let outgoing = outgoing_of(code);
    let below = outgoing + saved.len() as u64;
    let words = u64::from(slots) + below;
    let size = (area + 8 * words + 15) / 16 * 16;
    Layout {
        saves: (8 * outgoing) as u16,
        slots: (8 * below) as u16,
        area: (size - area) as u32,
        size,
        result: code.result,
        leave: code.blocks.len(),
        falls: falls_through(code),
    }
}

/// The bytes of stack that a call of the function has to be counted for at least.
#[tactic(auto, using(crate::proofs::Outgoing::few_outgoing))]
pub fn frame_bound(function: &FlatFunc) -> u64
    ensures { result ≡ frame_bound function.now.located.code function.now.located.slots }
{
    let code = &function.located.code;
    let words = u64::from(function.located.slots) + outgoing_of(code) + 16;
    (area_of(code) + 8 * words + 15) / 16 * 16
}

/// The code of a function that begins its frame at once.
fn frame_items(
    alloc: Global,
    function: &FlatFunc,
    saved: &[u8],
    shared: &Layout,
) -> Result<Vec<Item>, AllocError>
    requires registers { saved.now ≡ saved_registers function.now.located.code }
    requires plan { shared.now ≡ layout function.now.located.code function.now.located.slots }
    ensures { IfOk result (λ v. v.items ≡ frame_items function.now.located.code function.now.located.slots) }
{
    let mut items = Vec::new(alloc);
    push_function(
        &mut items,
        shared,
        saved,
        function.located.code.params.as_slice(),
        function.located.code.blocks.as_slice(),
    )?;
    Ok(items)
}

/// The code of a function that begins its frame at once, with its labels.
fn usual_frame(
    alloc: Global,
    function: &FlatFunc,
    saved: &[u8],
    shared: &Layout,
) -> Result<LabelledCode, AllocError>
    requires registers { saved.now ≡ saved_registers function.now.located.code }
    requires plan { shared.now ≡ layout function.now.located.code function.now.located.slots }
    ensures promise { IfOk result (λ c. IsFrameOf function.now.located.code function.now.located.slots c.items) }
    ensures size { IfOk result (λ c. longest_size c.items ≤ 32 * code_weight function.now.located.code + 256) }
{
    let blocks = function.located.code.blocks.as_slice();
    let items = frame_items(alloc, function, saved, shared)?;
    Ok(LabelledCode::new(items, blocks.len() + 2))
}

/// The code of code with marks.
fn marked_items(
    alloc: Global,
    slots: u32,
    marked: &Marked,
    saved: &[u8],
    shared: &Layout,
) -> Result<Vec<Item>, AllocError>
    requires is { IsMarked marked.now.code slots marked.now.marks.items }
    requires registers { saved.now ≡ saved_registers marked.now.code }
    requires plan { shared.now ≡ layout marked.now.code slots }
    requires small { length marked.now.code.blocks < 2 ^ 63 }
    ensures { IfOk result (λ v. v.items ≡ marked_code marked.now.code slots marked.now.marks.items) }
{
    let mut items = Vec::new(alloc);
    push_marked(
        &mut items,
        shared,
        saved,
        marked.code.params.as_slice(),
        marked.marks.as_slice(),
        marked.code.blocks.as_slice(),
    )?;
    Ok(items)
}

/// The code of what was made of a function, if it is within the function's price.
fn marked_within(
    alloc: Global,
    function: &FlatFunc,
    marked: &Marked,
    saved: &[u8],
    shared: &Layout,
) -> Result<Option<LabelledCode>, AllocError>
    requires made { IsMarkedOf function.now.located.code function.now.located.slots marked.now.code marked.now.marks.items }
    requires registers { saved.now ≡ saved_registers marked.now.code }
    requires plan { shared.now ≡ layout marked.now.code function.now.located.slots }
    requires same { frame_size marked.now.code function.now.located.slots ≡ frame_size function.now.located.code function.now.located.slots }
    ensures promise { IfOk result (λ o. IfSome o (λ c. IsFrameOf function.now.located.code function.now.located.slots c.items)) }
    ensures size { IfOk result (λ o. IfSome o (λ c. longest_size c.items ≤ 32 * code_weight function.now.located.code + 256)) }
{
    let blocks = marked.code.blocks.as_slice();
    let items = marked_items(alloc, function.located.slots, marked, saved, shared)?;
    let most = price(&function.located.code);
    if is_within(items.as_slice(), most) {
        Ok(Some(LabelledCode::new(items, blocks.len() + 2)))
    } else {
        Ok(None)
    }
}

/// The code of what was made of a function whose frame has this size, if its own is as large and it is within the price.
fn marked_by(
    alloc: Global,
    function: &FlatFunc,
    size: u64,
    marked: &Marked,
) -> Result<Option<LabelledCode>, AllocError>
    requires made { IsMarkedOf function.now.located.code function.now.located.slots marked.now.code marked.now.marks.items }
    requires own { size ≡ frame_size function.now.located.code function.now.located.slots }
    ensures promise { IfOk result (λ o. IfSome o (λ c. IsFrameOf function.now.located.code function.now.located.slots c.items)) }
    ensures size { IfOk result (λ o. IfSome o (λ c. longest_size c.items ≤ 32 * code_weight function.now.located.code + 256)) }
{
    let saved = saved_registers(alloc, &marked.code)?;
    let shared = layout_of(&marked.code, function.located.slots, saved.as_slice());
    if shared.size == size {
        marked_within(alloc, function, marked, saved.as_slice(), &shared)
    } else {
        Ok(None)
    }
}

/// The code of a function with ways that need no frame, if it has some, and a frame on others.
fn marked_frame(
    alloc: Global,
    function: &FlatFunc,
    size: u64,
) -> Result<Option<LabelledCode>, AllocError>
    requires own { size ≡ frame_size function.now.located.code function.now.located.slots }
    ensures promise { IfOk result (λ o. IfSome o (λ c. IsFrameOf function.now.located.code function.now.located.slots c.items)) }
    ensures size { IfOk result (λ o. IfSome o (λ c. longest_size c.items ≤ 32 * code_weight function.now.located.code + 256)) }
{
    if size == 0 {
        return Ok(None);
    }
    match ways(alloc, function)? {
        Some(marked) => marked_by(alloc, function, size, &marked),
        None => Ok(None),
    }
}

/// The machine code of a function, with at most 32 words for each unit of its weight, and 256. Wherever it stands, it performs what the
/// function's code on bytes runs.
///
/// # Errors
///
/// Only where memory was refused.
#[tactic(auto, using(crate::proofs::Outgoing::few_outgoing))]
pub fn frame(alloc: Global, function: &FlatFunc) -> Result<LabelledCode, AllocError>
    ensures promise { IfOk result (λ c. IsFrameOf function.now.located.code function.now.located.slots c.items) }
    ensures size { IfOk result (λ c. longest_size c.items ≤ 32 * code_weight function.now.located.code + 256) }
{
    let code = &function.located.code;
    let saved = saved_registers(alloc, code)?;
    let shared = layout_of(code, function.located.slots, saved.as_slice());
    match marked_frame(alloc, function, shared.size)? {
        Some(code) => Ok(code),
        None => usual_frame(alloc, function, saved.as_slice(), &shared),
    }
}
