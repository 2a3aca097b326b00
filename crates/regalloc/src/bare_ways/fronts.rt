//! The blocks in front of all calls.
use crate::intervals::positions::{Range, right_after, right_before};
use crate::intervals::text::Text;
use crate::places::candidates::Ground;
use crate::places::rooms::scratch_room;
use std::alloc::{AllocError, Global};
use vcode::{Block, Jump, Line, Location};

/// The back end makes no more lines and jumps twice, so no more blocks are looked at.
const MOST_BLOCKS: usize = 80;

/// The blocks in front of all calls.
#[derive(Drop)]
pub(crate) struct Fronts {
    /// those that are come to by such blocks alone
    pub(crate) inside: Vec<usize>,

    /// those behind them that are come to from them alone
    pub(crate) heads: Vec<usize>,

    /// the positions of the former, and where the latter begin
    pub(crate) zones: Vec<Range>,
}

/// Whether no call is made in the block, and no block of memory.
fn is_quiet(block: &Block<u32>) -> bool {
    let mut lines = block.lines.as_slice().iter();
    !lines.any(|line| matches!(line, Line::Call { .. } | Line::Alloc { .. }))
}

fn is_inside(inside: &[bool], block: usize) -> bool {
    inside.get(block) == Some(&true)
}

/// Takes the block out; what it leads to is to be looked at.
fn take_out(inside: &mut [bool], due: &mut Vec<usize>, block: usize) -> Result<(), AllocError> {
    if let Some(at) = inside.get_mut(block)
        && *at
    {
        *at = false;
        due.push(block)?;
    }
    Ok(())
}

/// Of the blocks that lead to this one, whether some are inside, and whether all are.
fn sources_inside(inside: &[bool], text: &Text, block: usize) -> (bool, bool) {
    let sources = text.sources(block);
    let count = sources
        .iter()
        .filter(|source| is_inside(inside, **source))
        .count();
    (0 < count, count == sources.len())
}

/// Takes out the blocks that lead to this one, if it is outside, others outside lead to it too, and something is live there that has its place in a frame.
fn settle(
    inside: &mut [bool],
    due: &mut Vec<usize>,
    list: &[Location],
    ground: Ground,
    block: usize,
) -> Result<(), AllocError> {
    let (some, all) = sources_inside(inside, &ground.facts.text, block);
    let mut live = ground.facts.starts.of(block).iter();
    if some
        && !all
        && !is_inside(inside, block)
        && live.any(|start| scratch_room(list, start.register).is_none())
    {
        for source in ground.facts.text.sources(block) {
            take_out(inside, due, *source)?;
        }
    }
    Ok(())
}

/// Of each block whether only blocks without calls lead to it, and it makes none. What a block leads to that is taken out is taken out too.
fn find_inside(alloc: Global, list: &[Location], ground: Ground) -> Result<Vec<bool>, AllocError> {
    let blocks = ground.function.code.blocks.as_slice();
    let mut all = vec![in alloc; true; blocks.len()]?;
    let inside = all.as_mut_slice();
    let mut due = Vec::new(alloc);
    for (number, block) in blocks.iter().enumerate() {
        if !is_quiet(block) {
            take_out(inside, &mut due, number)?;
        }
    }
    for _ in 0..blocks.len() {
        let Some(block) = due.pop() else {
            break;
        };
        settle(inside, &mut due, list, ground, block)?;
        for to in ground.facts.text.targets(block) {
            if let Some(to) = to {
                take_out(inside, &mut due, to)?;
                settle(inside, &mut due, list, ground, to)?;
            }
        }
    }
    Ok(all)
}

/// Whether a way on which nothing is called returns: by a block that is one of these, or as good as one for those that lead to it.
fn is_worth(inside: &[bool], ground: Ground) -> bool {
    let mut blocks = ground.function.code.blocks.as_slice().iter().enumerate();
    blocks.any(|(number, block)| {
        let (some, all) = sources_inside(inside, &ground.facts.text, number);
        matches!(block.jump, Jump::Return(_))
            && is_quiet(block)
            && (is_inside(inside, number) || (some && !all))
    })
}

/// The blocks that are inside, and those that stand behind them alone.
fn listed(alloc: Global, inside: &[bool], text: &Text) -> Result<Fronts, AllocError> {
    let mut fronts = Fronts {
        inside: Vec::new(alloc),
        heads: Vec::new(alloc),
        zones: Vec::new(alloc),
    };
    for (number, stretch) in text.stretches.iter().enumerate() {
        let (some, all) = sources_inside(inside, text, number);
        let start = right_before(stretch.first);
        if is_inside(inside, number) {
            let end = right_after(stretch.jump);
            fronts.inside.push(number)?;
            fronts.zones.push(Range { start, end })?;
        } else if some && all {
            fronts.heads.push(number)?;
            fronts.zones.push(Range { start, end: start })?;
        }
    }
    Ok(fronts)
}

/// The blocks in front of all calls, if the first one is among them, one of them returns, and they are few. The list has the place of each register.
pub(crate) fn fronts_of(
    alloc: Global,
    list: &[Location],
    ground: Ground,
) -> Result<Option<Fronts>, AllocError> {
    let first = ground.function.code.blocks.as_slice().first();
    if !first.is_some_and(|block| is_quiet(block)) {
        return Ok(None);
    }
    let inside = find_inside(alloc, list, ground)?;
    if !is_inside(inside.as_slice(), 0) || !is_worth(inside.as_slice(), ground) {
        return Ok(None);
    }
    let fronts = listed(alloc, inside.as_slice(), &ground.facts.text)?;
    if fronts.inside.len() <= MOST_BLOCKS {
        Ok(Some(fronts))
    } else {
        Ok(None)
    }
}
