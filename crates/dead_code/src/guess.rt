//! What blocks want at their beginnings: a guess that nothing proved rests on.
ghost use Rattle.std.specs.Prelude.{◌≡◌, true};
ghost use Rattle.std.specs.List.{list_all};
ghost use Rattle.vcode.specs.Prelude.{line_keeps, block_keeps, is_below};

use crate::wanted::{begin, has, is_dead, pass_line};
use bitset::BitSet;
use flow::graph::successor;
use std::alloc::{AllocError, Global};
use vcode::{Block, Line, VFunc};

/// How many sweeps there are at least, if more is wanted. Blocks that stand as they run take as many as loops are nested, and one more or two.
const SWEEPS: usize = 20;

/// So many words of sets are joined in further sweeps, about, and no more.
const JOINED: usize = 20_000_000;

/// Each sweep of that number goes the other way: blocks that stand against the order in which they run take one of those.
const TURN: usize = 4;

/// What each block wants at its beginning.
#[derive(Drop)]
pub(crate) struct Guess {
    pub(crate) starts: Vec<BitSet>,
    visits: Vec<Visit>,

    /// how often a block was gone over
    clock: usize,
}

/// When a block was last gone over.
#[derive(Clone, Copy)]
struct Visit {
    time: usize,

    /// when it was last found to want more at its beginning
    grown: usize,

    /// whether a line of it was dead, or lost its register
    has_dead: bool,
}

/// A block that was not yet gone over.
const UNSEEN: Visit = Visit {
    time: 0,
    grown: 0,
    has_dead: false,
};

impl Guess {
    fn visit(&self, block: usize) -> Visit {
        match self.visits.get(block) {
            Some(visit) => *visit,
            None => UNSEEN,
        }
    }

    /// Whether a block that the jump may lead to wants more since that time.
    fn wants_more(&self, to: Option<usize>, time: usize) -> bool {
        match to {
            Some(to) => time <= self.visit(to).grown,
            None => false,
        }
    }

    /// Whether the block was not yet gone over with what is wanted behind it.
    fn is_due(&self, number: usize, block: &Block<u32>) -> bool {
        let time = self.visit(number).time;
        time == 0
            || self.wants_more(successor(&block.jump, 0), time)
            || self.wants_more(successor(&block.jump, 1), time)
    }

    /// The block was gone over, and wants that at its beginning. Answers whether that is more than before.
    fn note(&mut self, number: usize, set: &BitSet, has_dead: bool) -> bool {
        self.clock = self.clock.saturating_add(1);
        let time = self.clock;
        let grows = grow(self.starts.as_mut_slice(), set, number);
        if let Some(visit) = self.visits.get_mut(number) {
            *visit = Visit {
                time,
                grown: if grows { time } else { visit.grown },
                has_dead,
            };
        }
        grows
    }

    /// Whether a line is dead, or loses its register.
    pub(crate) fn has_dead(&self) -> bool {
        self.visits.iter().any(|visit| visit.has_dead)
    }
}

/// Goes on from right behind a line to right before it. Answers whether it is dead, or loses its register.
fn walk_line(set: &mut BitSet, line: &Line<u32>) -> bool
    requires { line_keeps (is_below set.old.length) line.now ≡ true }
    ensures { set.new.length ≡ set.old.length }
{
    let is_idle = match line {
        Line::Tick { .. } => return false,
        Line::Alloc { to: Some(to), .. } => !has(set, *to),
        _ => is_dead(set, line),
    };
    if !is_idle {
        pass_line(set, line);
    }
    is_idle
}

/// Goes over the lines from the last to the first. Answers whether one is dead, or loses its register.
fn walk(set: &mut BitSet, lines: &[Line<u32>]) -> bool
    requires { list_all (line_keeps (is_below set.old.length)) lines.now ≡ true }
    ensures { set.new.length ≡ set.old.length }
{
    let mut has_dead = false;
    for k in (0..lines.len()).rev() {
        has_dead |= walk_line(set, &lines[k]);
    }
    has_dead
}

fn grow(starts: &mut [BitSet], set: &BitSet, block: usize) -> bool {
    match starts.get_mut(block) {
        Some(row) => row.len() == set.len() && row.union_into(set),
        None => false,
    }
}

/// Makes the set what a block wants at its beginning. Answers whether a line of it is dead, or loses its register.
fn walk_block(set: &mut BitSet, starts: &[BitSet], block: &Block<u32>) -> bool
    requires { block_keeps (is_below set.old.length) block.now ≡ true }
    ensures { set.new.length ≡ set.old.length }
{
    begin(set, starts, &block.jump);
    walk(set, block.lines.as_slice())
}

/// Goes over the block, where that is due. Answers whether it wants more at its beginning than before.
fn go(guess: &mut Guess, set: &mut BitSet, number: usize, block: &Block<u32>) -> bool
    requires { block_keeps (is_below set.old.length) block.now ≡ true }
    ensures { set.new.length ≡ set.old.length }
{
    if !guess.is_due(number, block) {
        return false;
    }
    let has_dead = walk_block(set, guess.starts.as_slice(), block);
    guess.note(number, set, has_dead)
}

/// Goes over the blocks that are due, from the last to the first. Answers whether one wants more at its beginning: where none does, none is due.
fn sweep(guess: &mut Guess, set: &mut BitSet, blocks: &[Block<u32>]) -> bool
    requires { list_all (block_keeps (is_below set.old.length)) blocks.now ≡ true }
    ensures { set.new.length ≡ set.old.length }
{
    let mut has_grown = false;
    for k in (0..blocks.len()).rev() {
        has_grown |= go(guess, set, k, &blocks[k]);
    }
    has_grown
}

fn empty_sets(alloc: Global, count: usize, registers: usize) -> Result<Vec<BitSet>, AllocError> {
    let mut sets = Vec::with_capacity(alloc, count)?;
    for _ in 0..count {
        sets.push(BitSet::new(alloc, registers)?)?;
    }
    Ok(sets)
}

/// The same from the first to the last.
fn sweep_down(guess: &mut Guess, set: &mut BitSet, blocks: &[Block<u32>]) -> bool
    requires { list_all (block_keeps (is_below set.old.length)) blocks.now ≡ true }
    ensures { set.new.length ≡ set.old.length }
{
    let mut has_grown = false;
    for k in 0..blocks.len() {
        has_grown |= go(guess, set, k, &blocks[k]);
    }
    has_grown
}

/// How many sweeps there are at most over so many blocks.
fn most_sweeps(blocks: usize, registers: usize) -> usize {
    let words = (registers / 64).saturating_add(1);
    JOINED
        .checked_div(blocks.saturating_mul(words))
        .unwrap_or(0)
        .saturating_add(SWEEPS)
}

/// Lets what blocks want grow, until none wants more.
fn sweep_all(guess: &mut Guess, set: &mut BitSet, blocks: &[Block<u32>])
    requires { list_all (block_keeps (is_below set.old.length)) blocks.now ≡ true }
{
    for number in 1..most_sweeps(blocks.len(), set.len()) {
        let has_grown = if number % TURN == 0 {
            sweep_down(guess, set, blocks)
        } else {
            sweep(guess, set, blocks)
        };
        if !has_grown {
            return;
        }
    }
}

/// What each block of a function wants at its beginning, as far as so many sweeps find it.
///
/// # Errors
///
/// Only where memory was refused.
pub(crate) fn guessed(alloc: Global, function: &VFunc) -> Result<Guess, AllocError> {
    let blocks = function.code.blocks.as_slice();
    let registers = function.registers as usize;
    let mut guess = Guess {
        starts: empty_sets(alloc, blocks.len(), registers)?,
        visits: vec![in alloc; UNSEEN; blocks.len()]?,
        clock: 0,
    };
    let mut set = BitSet::new(alloc, registers)?;
    sweep_all(&mut guess, &mut set, blocks);
    Ok(guess)
}
