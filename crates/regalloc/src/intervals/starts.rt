//! Which registers are live where blocks begin, and which are so at so many blocks that they are taken to be so throughout.
use crate::intervals::accesses::Kind;
use crate::intervals::demands::Demands;
use crate::intervals::text::Text;
use crate::lists::{part, set};
use cfg_live::Live;
use std::alloc::{AllocError, Global};
use vcode::Block;

/// A register that is live where a block begins. In the order of starts those of a block stand together.
#[derive(Clone, Copy, PartialEq, Eq, PartialOrd, Ord)]
pub(crate) struct Start {
    block: usize,
    pub(crate) register: u32,
}

/// The registers that are live where blocks begin. A register that is live at the starts of too many blocks is named for none of them: it is taken to have a
/// value throughout.
#[derive(Drop)]
pub(crate) struct Starts {
    list: Vec<Start>,

    /// of each register whether it has a value throughout
    throughout: Vec<bool>,
}

impl Starts {
    /// The registers that are live where the block begins, in their order, but for those that have a value throughout.
    pub(crate) fn of(&self, block: usize) -> &[Start] {
        let list = self.list.as_slice();
        let first = list.partition_point(|start| start.block < block);
        let end = list.partition_point(|start| start.block <= block);
        part(list, first, end)
    }

    /// Whether the register is taken to have a value throughout.
    pub(crate) fn is_throughout(&self, register: u32) -> bool {
        self.throughout.get(register as usize) == Some(&true)
    }
}

/// What is known of the function.
#[derive(Clone, Copy)]
pub(crate) struct Known<'a> {
    pub(crate) text: &'a Text,
    pub(crate) live: &'a Live,
    pub(crate) demands: &'a Demands,
    pub(crate) registers: u32,
}

/// What is found, register by register.
#[derive(Drop)]
struct Search {
    starts: Starts,

    /// for each block the last register that was found live where it begins
    last: Vec<Option<u32>>,
}

/// The search before its first register.
fn nothing_found(alloc: Global, known: Known) -> Result<Search, AllocError> {
    Ok(Search {
        starts: Starts {
            list: Vec::with_capacity(alloc, known.registers as usize)?,
            throughout: vec![in alloc; false; known.registers as usize]?,
        },
        last: vec![in alloc; None; known.text.stretches.len()]?,
    })
}

/// Notes that the register is live where the block begins, if it is and that wasn't found yet.
fn find(search: &mut Search, known: Known, block: usize, register: u32) -> Result<(), AllocError> {
    if let Some(last) = search.last.get_mut(block)
        && *last != Some(register)
        && known.text.is_live(known.live, block, register)
    {
        *last = Some(register);
        search.starts.list.push(Start { block, register })?;
    }
    Ok(())
}

/// Finds the register where blocks begin, back from where it is read, until more than so many are found; says whether no more are.
fn find_all(
    search: &mut Search,
    known: Known,
    register: u32,
    most: usize,
) -> Result<bool, AllocError> {
    let first = search.starts.list.len();
    let end = first.saturating_add(most);
    for access in known.demands.accesses(register) {
        if access.kind == Kind::Read {
            find(search, known, known.text.block_of(access.point), register)?;
        }
    }
    for number in first..end {
        let Some(start) = search.starts.list.get(number).copied() else {
            break;
        };
        for source in known.text.sources(start.block) {
            if end < search.starts.list.len() {
                break;
            }
            find(search, known, *source, register)?;
        }
    }
    Ok(search.starts.list.len() <= end)
}

/// Finds all registers; says whether that is no more than so many altogether.
fn find_within(search: &mut Search, known: Known, most: usize) -> Result<bool, AllocError> {
    for register in 0..known.registers {
        let left = most.saturating_sub(search.starts.list.len());
        if !find_all(search, known, register, left)? {
            return Ok(false);
        }
    }
    Ok(true)
}

/// How many lines and jumps there are, ticks included.
pub(crate) fn line_count(blocks: &[Block<u32>]) -> usize {
    blocks.iter().fold(blocks.len(), |count: usize, block| {
        count.saturating_add(block.lines.len())
    })
}

/// Which registers are live where the blocks begin, if they are so at so many altogether; else each is found at its share of them, or taken to have a value throughout.
pub(crate) fn starts_of(alloc: Global, known: Known, most: usize) -> Result<Starts, AllocError> {
    let mut search = nothing_found(alloc, known)?;
    if !find_within(&mut search, known, most)? {
        search = nothing_found(alloc, known)?;
        let each = most / (known.registers as usize).max(1);
        for register in 0..known.registers {
            let first = search.starts.list.len();
            if !find_all(&mut search, known, register, each)? {
                search.starts.list.truncate(first);
                let throughout = search.starts.throughout.as_mut_slice();
                set(throughout, register as usize, true);
            }
        }
    }
    search.starts.list.sort()?;
    Ok(search.starts)
}
