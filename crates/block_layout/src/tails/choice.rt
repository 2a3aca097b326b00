//! Which blocks are worth copies: a guess that nothing proved rests on.
use flow::depths::depths;
use flow::graph::{reachable, successor};
use std::alloc::{AllocError, Global};
use vcode::{Block, Jump, Line};

/// As many lines as a block that isn't worth a copy has.
const MANY: u64 = 100;

/// A short block has fewer lines of code.
const SHORT: u64 = 8;

/// Which blocks are worth copies, besides those to which nothing else leads.
#[derive(Clone, Copy)]
pub enum Worth {
    /// those that do nothing but branch or return, where they begin no loop
    Bare,

    /// those that branch or return behind few lines
    Short,
}

/// The jumps that lead to a block.
#[derive(Clone, Copy)]
struct Sources {
    /// how many they are, as far as a byte goes
    count: u8,

    /// whether one of them comes from a block in fewer loops
    is_entry: bool,
}

const NONE: Sources = Sources {
    count: 0,
    is_entry: false,
};

/// About how many instructions the line becomes.
fn size(line: &Line<u32>) -> u64 {
    match line {
        Line::Tick { .. } => 0,
        Line::Set { .. } | Line::Operate { .. } | Line::Load { .. } | Line::Store { .. } => 1,
        Line::Call { .. } | Line::Blit { .. } | Line::Alloc { .. } => MANY,
    }
}

/// Whether the lines become fewer instructions than that.
fn are_few(lines: &[Line<u32>], most: u64) -> bool {
    let mut total = 0u64;
    for line in lines {
        total = total.saturating_add(size(line));
        if total >= most {
            return false;
        }
    }
    total < most
}

/// Whether the block branches or returns, and has few lines.
fn is_short(block: &Block<u32>, most: u64) -> bool {
    matches!(block.jump, Jump::Branch { .. } | Jump::Return(_))
        && are_few(block.lines.as_slice(), most)
}

/// Whether a block to which several jumps lead is worth copies.
fn is_copied(block: &Block<u32>, sources: Sources, worth: Worth) -> bool {
    match worth {
        Worth::Bare => !sources.is_entry && is_short(block, 1),
        Worth::Short => is_short(block, SHORT),
    }
}

/// Whether the block counts: where there are no marks, all do.
pub(crate) fn is_marked(marks: &[bool], block: usize) -> bool {
    marks.get(block).copied().unwrap_or(true)
}

fn is_worth(
    blocks: &[Block<u32>],
    sources: &[Sources],
    from: usize,
    to: usize,
    worth: Worth,
) -> bool {
    match (blocks.get(to), sources.get(to)) {
        (Some(block), Some(sources)) if from != to => {
            sources.count == 1 || is_copied(block, *sources, worth)
        }
        _ => false,
    }
}

/// Whether the block has a mark and goes to one that is worth a copy.
fn is_chosen(
    blocks: &[Block<u32>],
    marks: &[bool],
    sources: &[Sources],
    number: usize,
    worth: Worth,
) -> bool {
    match blocks.get(number) {
        Some(
            Block {
                jump: Jump::Goto(to),
                ..
            },
        ) => is_marked(marks, number) && is_worth(blocks, sources, number, *to, worth),
        _ => false,
    }
}

fn count(sources: &mut [Sources], to: Option<usize>) {
    if let Some(to) = to
        && let Some(of) = sources.get_mut(to)
    {
        of.count = of.count.saturating_add(1);
    }
}

/// Counts the jumps from marked blocks that lead to each block: a branch with both its targets the same counts twice.
fn count_sources(sources: &mut [Sources], blocks: &[Block<u32>], marks: &[bool]) {
    for (number, block) in blocks.iter().enumerate() {
        if is_marked(marks, number) {
            count(sources, successor(&block.jump, 0));
            count(sources, successor(&block.jump, 1));
        }
    }
}

fn note_entry(sources: &mut [Sources], depths: &[u32], from: usize, to: Option<usize>) {
    if let Some(to) = to
        && let Some(of) = sources.get_mut(to)
        && let Some(outer) = depths.get(from)
        && let Some(inner) = depths.get(to)
    {
        of.is_entry = of.is_entry || outer < inner;
    }
}

/// Notes where jumps lead into loops.
fn note_entries(
    alloc: Global,
    sources: &mut [Sources],
    blocks: &[Block<u32>],
) -> Result<(), AllocError> {
    let depths = depths(alloc, blocks)?;
    for (number, block) in blocks.iter().enumerate() {
        for to in [successor(&block.jump, 0), successor(&block.jump, 1)] {
            note_entry(sources, depths.as_slice(), number, to);
        }
    }
    Ok(())
}

/// Whether several jumps lead to a block that does nothing but branch.
fn has_bare_branch(sources: &[Sources], blocks: &[Block<u32>]) -> bool {
    sources.iter().zip(blocks).any(|(of, block)| {
        1 < of.count
            && matches!(block.jump, Jump::Branch { .. })
            && are_few(block.lines.as_slice(), 1)
    })
}

/// For each block whether the block that it goes to is worth a copy; none where no block is. Blocks without a mark don't count; where there are no marks, all do.
///
/// # Errors
///
/// Only where memory was refused.
pub fn chosen_tails(
    alloc: Global,
    blocks: &[Block<u32>],
    marks: &[bool],
    worth: Worth,
) -> Result<Option<Vec<bool>>, AllocError> {
    let mut sources = vec![in alloc; NONE; blocks.len()]?;
    count_sources(sources.as_mut_slice(), blocks, marks);
    if matches!(worth, Worth::Bare) && has_bare_branch(sources.as_slice(), blocks) {
        note_entries(alloc, sources.as_mut_slice(), blocks)?;
    }
    let sources = sources.as_slice();
    let chosen = (0..blocks.len()).map(|number| is_chosen(blocks, marks, sources, number, worth));
    let chosen: Vec<bool> = chosen.collect(alloc)?;
    if chosen.contains(&true) {
        Ok(Some(chosen))
    } else {
        Ok(None)
    }
}

/// The numbers of the blocks to which a way leads from the first, in their order.
pub(crate) fn reached_blocks(
    alloc: Global,
    blocks: &[Block<u32>],
) -> Result<Vec<usize>, AllocError> {
    let marks = reachable(alloc, blocks)?;
    let reached = (0..marks.len()).filter(|number| marks.get(*number) == Some(&true));
    reached.collect(alloc)
}
