//! Which ways of a function are made without a frame. It is a guess, which nothing proved rests on: what it says is tested before it is used.
use crate::bare::is_bare_block;
use crate::mark::Mark;
use crate::plan::{Part, Plan};
use il_ast::Seq;
use std::alloc::{AllocError, Global};
use vcode::{Block, Jump, Line, Location};

/// At most so many lines and jumps are copied.
pub const COPIED_LINES: usize = 80;

/// What stands in front of the frame's begin for a block.
#[derive(Clone, Copy, PartialEq, Eq)]
enum Front {
    /// a copy of it, which needs no frame
    Copied,
    /// the begin of the frame, behind which the block goes on
    Begin,
    /// nothing: no way without a frame comes to it
    Nothing,
}

/// What stands for a block.
#[derive(Clone, Copy)]
struct Standing {
    /// in front of the frame's begin
    front: Front,
    /// whether it stands behind the frame's begin
    kept: bool,
    /// whether one that stands there leads to it
    entered: bool,
}

impl Standing {
    /// Whether it is come to from the frame's begin alone, which then stands right in front of it.
    fn is_begun(&self) -> bool {
        self.kept && !self.entered && self.front == Front::Begin
    }
}

/// The block that a jump leads to first or second.
fn target(jump: &Jump<Location>, second: bool) -> Option<usize> {
    match jump {
        Jump::Goto(target) => if second { None } else { Some(*target) },
        Jump::Branch { met, otherwise, .. } => Some(if second { *otherwise } else { *met }),
        Jump::Return(_) | Jump::Halt => None,
    }
}

fn takes_words(line: &Line<Location>) -> bool {
    match line {
        Line::Tick { .. } => false,
        Line::Set { .. }
        | Line::Operate { .. }
        | Line::Load { .. }
        | Line::Store { .. }
        | Line::Alloc { .. }
        | Line::Blit { .. }
        | Line::Call { .. } => true,
    }
}

/// The lines of a block that take words, and its jump.
fn length_of(block: &Block<Location>) -> usize {
    let mut length: usize = 1;
    for line in block.lines.as_slice() {
        if takes_words(line) {
            length = length.saturating_add(1);
        }
    }
    length
}

fn returns(block: &Block<Location>) -> bool {
    match block.jump {
        Jump::Return(_) => true,
        Jump::Goto(_) | Jump::Branch { .. } | Jump::Halt => false,
    }
}

/// What was found of the ways without a frame, and the blocks whose jumps are still to be followed.
#[derive(Drop)]
struct Search {
    waiting: Vec<usize>,
    copied: usize,
    returns: bool,
}

fn front_at(parts: &[Standing], block: usize) -> Front {
    match parts.get(block) {
        Some(part) => part.front,
        None => Front::Begin,
    }
}

fn put_front(parts: &mut [Standing], block: usize, front: Front) {
    if block < parts.len() {
        parts[block].front = front;
    }
}

/// A way without a frame comes to the block: it is copied, or the frame begins for it.
fn meet(
    search: &mut Search,
    parts: &mut [Standing],
    number: usize,
    block: &Block<Location>,
) -> Result<(), AllocError> {
    let copied = search.copied.saturating_add(length_of(block));
    if copied <= COPIED_LINES && is_bare_block(block) {
        search.copied = copied;
        search.returns = search.returns || returns(block);
        put_front(parts, number, Front::Copied);
        search.waiting.push(number)?;
    } else {
        put_front(parts, number, Front::Begin);
    }
    Ok(())
}

fn meet_new(
    search: &mut Search,
    parts: &mut [Standing],
    blocks: &[Block<Location>],
    target: Option<usize>,
) -> Result<(), AllocError> {
    match target {
        Some(number) => match (front_at(parts, number), blocks.get(number)) {
            (Front::Nothing, Some(block)) => meet(search, parts, number, block),
            _ => Ok(()),
        },
        None => Ok(()),
    }
}

fn meet_targets(
    search: &mut Search,
    parts: &mut [Standing],
    blocks: &[Block<Location>],
    block: Option<&Block<Location>>,
) -> Result<(), AllocError> {
    match block {
        Some(block) => {
            meet_new(search, parts, blocks, target(&block.jump, false))?;
            meet_new(search, parts, blocks, target(&block.jump, true))
        }
        None => Ok(()),
    }
}

/// Finds what stands in front, and says whether a way without a frame returns.
fn find_fronts(
    alloc: Global,
    parts: &mut [Standing],
    blocks: &[Block<Location>],
) -> Result<bool, AllocError> {
    let mut search = Search {
        waiting: Vec::new(alloc),
        copied: 0,
        returns: false,
    };
    meet_new(&mut search, parts, blocks, Some(0))?;
    for _ in 0..blocks.len() {
        match search.waiting.pop() {
            Some(block) => meet_targets(&mut search, parts, blocks, blocks.get(block))?,
            None => return Ok(search.returns),
        }
    }
    Ok(search.returns)
}

fn is_kept_already(parts: &[Standing], block: usize) -> bool {
    match parts.get(block) {
        Some(part) => part.kept,
        None => true,
    }
}

fn keep(
    parts: &mut [Standing],
    waiting: &mut Vec<usize>,
    target: Option<usize>,
) -> Result<(), AllocError> {
    match target {
        Some(block) => {
            if !is_kept_already(parts, block) && block < parts.len() {
                parts[block].kept = true;
                waiting.push(block)?;
            }
            Ok(())
        }
        None => Ok(()),
    }
}

/// A block behind the frame's begin leads to the target.
fn lead(
    parts: &mut [Standing],
    waiting: &mut Vec<usize>,
    target: Option<usize>,
) -> Result<(), AllocError> {
    if let Some(block) = target {
        if block < parts.len() {
            parts[block].entered = true;
        }
    }
    keep(parts, waiting, target)
}

fn keep_targets(
    parts: &mut [Standing],
    waiting: &mut Vec<usize>,
    block: Option<&Block<Location>>,
) -> Result<(), AllocError> {
    match block {
        Some(block) => {
            lead(parts, waiting, target(&block.jump, false))?;
            lead(parts, waiting, target(&block.jump, true))
        }
        None => Ok(()),
    }
}

/// The blocks for which the frame begins stand behind its begin.
fn keep_begun(
    parts: &mut [Standing],
    waiting: &mut Vec<usize>,
    blocks: usize,
) -> Result<(), AllocError> {
    for block in 0..blocks {
        if front_at(parts, block) == Front::Begin {
            keep(parts, waiting, Some(block))?;
        }
    }
    Ok(())
}

/// Finds what stands behind the frame's begin: what is come to from there.
fn find_kept(
    alloc: Global,
    parts: &mut [Standing],
    blocks: &[Block<Location>],
) -> Result<(), AllocError> {
    let mut waiting = Vec::new(alloc);
    keep_begun(parts, &mut waiting, blocks.len())?;
    for _ in 0..blocks.len() {
        match waiting.pop() {
            Some(block) => keep_targets(parts, &mut waiting, blocks.get(block))?,
            None => return Ok(()),
        }
    }
    Ok(())
}

fn first_kept(parts: &[Standing]) -> Option<usize> {
    for (block, part) in parts.iter().enumerate() {
        if part.kept {
            return Some(block);
        }
    }
    None
}

/// A plan that is being made.
#[derive(Drop)]
struct Order {
    parts: Vec<Part>,
    front: Vec<usize>,
    behind: Vec<usize>,
}

fn put_number(numbers: &mut [usize], block: usize, number: usize) {
    if block < numbers.len() {
        numbers[block] = number;
    }
}

/// What stands in front for the block stands next.
fn place_front(order: &mut Order, parts: &[Standing], block: usize) -> Result<(), AllocError> {
    let mark = match front_at(parts, block) {
        Front::Copied => Mark::Bare,
        Front::Begin => Mark::Begin,
        Front::Nothing => return Ok(()),
    };
    let number = order.parts.len();
    put_number(order.front.as_mut_slice(), block, number);
    order.parts.push(Part { block, mark })?;
    Ok(())
}

fn place_fronts(
    order: &mut Order,
    parts: &[Standing],
    from: usize,
    to: usize,
) -> Result<(), AllocError> {
    for block in from..to {
        match parts.get(block) {
            Some(part) if !part.is_begun() => place_front(order, parts, block)?,
            _ => {}
        }
    }
    Ok(())
}

/// What stands behind the frame's begin for the block stands next, where the frame begins for it alone behind that.
fn place_behind(order: &mut Order, parts: &[Standing], block: usize) -> Result<(), AllocError> {
    match parts.get(block) {
        Some(part) if part.is_begun() => place_front(order, parts, block)?,
        _ => {}
    }
    let number = order.parts.len();
    put_number(order.behind.as_mut_slice(), block, number);
    order.parts.push(Part {
        block,
        mark: Mark::Framed,
    })?;
    Ok(())
}

fn place_kept(order: &mut Order, parts: &[Standing]) -> Result<(), AllocError> {
    for (block, part) in parts.iter().enumerate() {
        if part.kept {
            place_behind(order, parts, block)?;
        }
    }
    Ok(())
}

/// What stands in front for the blocks up to the first that is kept, those that are kept, and what stands in front for the others. Where the frame begins for a block
/// that is come to in no other way, that stands right before it.
fn place(order: &mut Order, parts: &[Standing], enter: usize) -> Result<(), AllocError> {
    let next = enter.saturating_add(1);
    place_fronts(order, parts, 0, next)?;
    place_kept(order, parts)?;
    place_fronts(order, parts, next, parts.len())
}

fn arrange(alloc: Global, parts: &[Standing], enter: usize) -> Result<Plan, AllocError> {
    let mut order = Order {
        parts: Vec::new(alloc),
        front: vec![in alloc; 0usize; parts.len()]?,
        behind: vec![in alloc; 0usize; parts.len()]?,
    };
    place(&mut order, parts, enter)?;
    Ok(Plan {
        parts: Seq::from_vec(order.parts),
        front: Seq::from_vec(order.front),
        behind: Seq::from_vec(order.behind),
    })
}

/// A plan by which some ways of a function are made without a frame, if some are worth it: they return.
/// It takes time and memory as there are blocks.
pub(crate) fn choose(
    alloc: Global,
    blocks: &[Block<Location>],
) -> Result<Option<Plan>, AllocError> {
    let none = Standing {
        front: Front::Nothing,
        kept: false,
        entered: false,
    };
    let mut parts = vec![in alloc; none; blocks.len()]?;
    if !find_fronts(alloc, parts.as_mut_slice(), blocks)? {
        return Ok(None);
    }
    find_kept(alloc, parts.as_mut_slice(), blocks)?;
    match first_kept(parts.as_slice()) {
        Some(enter) => Ok(Some(arrange(alloc, parts.as_slice(), enter)?)),
        None => Ok(None),
    }
}
