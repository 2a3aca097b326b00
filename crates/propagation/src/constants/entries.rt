//! What is claimed where blocks begin: a guess, of which nothing is proved.
use crate::constants::claim::{Claim, Entry};
use crate::constants::replace::is_short;
use crate::constants::walk::Walk;
use il_ast::Seq;
use std::alloc::{AllocError, Global};
use vcode::{Block, Jump, Line, VFunc};

/// How often the guess goes over a function at most.
const ROUNDS: usize = 8;

/// What is claimed where a block begins, once a way leads there.
#[derive(Drop)]
struct Guess {
    claims: Vec<Claim>,
    is_led_to: bool,

    /// whether the block is still to be gone over with these
    is_new: bool,
}

/// One more way leads to a block, at the end of what the walk went along; returns whether less is claimed of the block than before, or something for the first time.
fn meet(alloc: Global, walk: &mut Walk, guess: &mut Guess) -> Result<bool, AllocError> {
    if guess.is_led_to {
        let before = guess.claims.len();
        guess.claims.retain(|claim| walk.knows(claim));
        if guess.claims.len() == before {
            return Ok(false);
        }
    } else {
        guess.claims = walk.known(alloc)?;
        guess.is_led_to = true;
    }
    guess.is_new = true;
    Ok(true)
}

fn meet_at(
    alloc: Global,
    walk: &mut Walk,
    guesses: &mut [Guess],
    block: usize,
) -> Result<bool, AllocError> {
    match guesses.get_mut(block) {
        Some(guess) => meet(alloc, walk, guess),
        None => Ok(false),
    }
}

/// What is known where a block ends is claimed where its jump leads.
fn lead(
    alloc: Global,
    walk: &mut Walk,
    guesses: &mut [Guess],
    jump: &Jump<u32>,
) -> Result<bool, AllocError> {
    match jump {
        Jump::Goto(to) => meet_at(alloc, walk, guesses, *to),
        Jump::Branch { met, otherwise, .. } => {
            let one = meet_at(alloc, walk, guesses, *met)?;
            let other = meet_at(alloc, walk, guesses, *otherwise)?;
            Ok(one || other)
        }
        Jump::Return(_) | Jump::Halt => Ok(false),
    }
}

/// A block begins with what is claimed there, if that is less than when the block was gone over; says whether it is. To a block to which no way led so far one
/// may yet lead, so nothing is claimed of that.
fn begin(walk: &mut Walk, guesses: &mut [Guess], block: usize) -> Result<bool, AllocError> {
    match guesses.get_mut(block) {
        Some(guess) if guess.is_new => {
            guess.is_led_to = true;
            guess.is_new = false;
            walk.begin(guess.claims.as_slice())?;
            Ok(true)
        }
        _ => Ok(false),
    }
}

/// Whether a jump leads to another block.
fn leads_on(jump: &Jump<u32>) -> bool {
    match jump {
        Jump::Goto(_) | Jump::Branch { .. } => true,
        Jump::Return(_) | Jump::Halt => false,
    }
}

/// Goes over a block, if that begins with less than when it was gone over; returns whether what is claimed of any changed.
fn go(
    alloc: Global,
    walk: &mut Walk,
    guesses: &mut [Guess],
    number: usize,
    block: &Block<u32>,
) -> Result<bool, AllocError> {
    if !leads_on(&block.jump) || !begin(walk, guesses, number)? {
        return Ok(false);
    }
    walk.go(block.lines.as_slice())?;
    lead(alloc, walk, guesses, &block.jump)
}

/// Goes over all blocks; returns whether what is claimed of any changed.
fn round(
    alloc: Global,
    walk: &mut Walk,
    guesses: &mut [Guess],
    blocks: &[Block<u32>],
) -> Result<bool, AllocError> {
    let mut has_changed = false;
    for (number, block) in blocks.iter().enumerate() {
        has_changed = go(alloc, walk, guesses, number, block)? || has_changed;
    }
    Ok(has_changed)
}

/// A way leads to the first block, on which nothing is known, and none to the others.
fn unknown(alloc: Global, blocks: usize) -> Result<Vec<Guess>, AllocError> {
    let mut guesses = Vec::with_capacity(alloc, blocks)?;
    for number in 0..blocks {
        guesses.push(Guess {
            claims: Vec::new(alloc),
            is_led_to: number == 0,
            is_new: true,
        })?;
    }
    Ok(guesses)
}

/// The claims for each block; for none, where nothing is claimed of any.
fn as_entries(alloc: Global, guesses: Vec<Guess>) -> Result<Vec<Entry>, AllocError> {
    if guesses.iter().all(|guess| guess.claims.is_empty()) {
        return Ok(Vec::new(alloc));
    }
    let mut entries = Vec::with_capacity(alloc, guesses.len())?;
    for guess in guesses {
        entries.push(Entry {
            claims: Seq::from_vec(guess.claims),
        })?;
    }
    Ok(entries)
}

/// Whether a line of the block sets a register to what may take its place.
fn sets_registers(block: &Block<u32>) -> bool {
    block.lines.as_slice().iter().any(|line| match line {
        Line::Set { value, .. } => is_short(value),
        _ => false,
    })
}

/// Whether nothing would be claimed in the end, as where all copies stand for phis: all blocks that set a register go to one block, with different values.
fn claims_nothing(walk: &mut Walk, blocks: &[Block<u32>]) -> Result<bool, AllocError> {
    for block in blocks {
        walk.begin(&[])?;
        walk.go(block.lines.as_slice())?;
        if !walk.note_ways(block) {
            return Ok(false);
        }
    }
    Ok(walk.all_differ())
}

/// What is claimed where each block begins: that registers hold what they do behind every block that leads there. Nothing, where that isn't found in a few rounds.
///
/// # Errors
///
/// Only where memory was refused.
pub(crate) fn entries(alloc: Global, function: &VFunc) -> Result<Vec<Entry>, AllocError> {
    let blocks = function.code.blocks.as_slice();
    if blocks.len() < 2 || !blocks.iter().any(|block| sets_registers(block)) {
        return Ok(Vec::new(alloc));
    }
    let mut walk = Walk::new(alloc, function)?;
    if claims_nothing(&mut walk, blocks)? {
        return Ok(Vec::new(alloc));
    }
    let mut guesses = unknown(alloc, blocks.len())?;
    for _ in 0..ROUNDS {
        if !round(alloc, &mut walk, guesses.as_mut_slice(), blocks)? {
            return as_entries(alloc, guesses);
        }
    }
    Ok(Vec::new(alloc))
}
