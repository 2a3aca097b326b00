//! Which facts are claimed where blocks begin. It is a guess: whether they are known there is tested where they are used.
use crate::fact::{Expression, Fact, reads};
use crate::lines::changed;
use crate::steps::pass;
use crate::ways::{Order, is_known, is_linear, may_grow, may_shrink, order_met, order_missed};
use cfg_live::uses::line_writes;
use flow::graph::successor;
use il_ast::{Few, Seq};
use std::alloc::{AllocError, Global};
use vcode::{Block, Jump, Line, Operand, Operation};

/// How many facts are claimed of a block, at most.
const CLAIMS: usize = 48;

/// For how many facts there is room at first.
const ROOM: usize = 16;

/// How often less is claimed of a block than before, at most; then nothing is.
const CHANGES: u32 = 8;

/// How many blocks are looked at for each block, at most: until nothing changes.
const STEPS_A_BLOCK: usize = 64;

/// The facts that are known on all ways to a block that were gone so far; none where no way was.
#[derive(Drop)]
struct Claim {
    facts: Option<Vec<Fact>>,

    /// whether the block is still to be gone through with these
    is_new: bool,

    /// how often they became fewer
    changes: u32,

    /// whether lines became others when the block was gone through last
    has_changed: bool,
}

impl Claim {
    /// Whether lines of the block become others by what is claimed now, or may.
    fn may_change(&self) -> bool {
        self.has_changed || self.is_new && self.facts.is_some()
    }
}

/// What is known on the way along a block, and whether lines of it have become others.
#[derive(Drop)]
struct Along {
    facts: Vec<Fact>,
    has_changed: bool,
}

/// Takes what is known before the lines to what is known behind them, or behind those that stand in their places.
fn pass_lines(
    alloc: Global,
    along: &mut Along,
    registers: u32,
    lines: &[Line<u32>],
) -> Result<(), AllocError> {
    for line in lines {
        match changed(along.facts.as_slice(), registers, line) {
            Some(changed) => {
                along.has_changed = true;
                pass(alloc, &mut along.facts, &changed)?;
            }
            None => pass(alloc, &mut along.facts, line)?,
        }
    }
    Ok(())
}

/// One fact more, if few are claimed.
fn push_claim(known: &mut Vec<Fact>, fact: Fact) -> Result<(), AllocError> {
    if known.len() < CLAIMS {
        known.extend_from_slice(&[fact])?;
    }
    Ok(())
}

fn growing_by(register: u32, number: u64) -> Fact {
    Fact {
        register,
        value: Expression::Growing(Operand::At(register), number),
    }
}

/// Whether something is known as linear in the register.
fn is_index(facts: &[Fact], register: u32) -> bool {
    facts.iter().any(|fact| match fact.value {
        Expression::Linear(_, Operand::At(index), _, _) => index == register,
        _ => false,
    })
}

/// What is linear in a register, as what is linear in a copy of that.
fn of_copy(linear: &Fact, copy: &Fact) -> Option<Fact> {
    match (linear.value, copy.value) {
        (
            Expression::Linear(base, Operand::At(index), factor, offset),
            Expression::Same(Operand::At(from)),
        ) if from == index => Some(Fact {
            register: linear.register,
            value: Expression::Linear(base, Operand::At(copy.register), factor, offset),
        }),
        _ => None,
    }
}

fn claim_copies(known: &mut Vec<Fact>, facts: &[Fact], linear: &Fact) -> Result<(), AllocError> {
    if !is_linear(linear.value) {
        return Ok(());
    }
    for fact in facts {
        if let Some(other) = of_copy(linear, fact) {
            push_claim(known, other)?;
        }
    }
    Ok(())
}

/// Of two words in order, the less one as one that may grow, and the other as one that may shrink, if something is linear in it.
fn claim_growing(
    known: &mut Vec<Fact>,
    marks: &[bool],
    facts: &[Fact],
    order: &Option<Order>,
) -> Result<(), AllocError> {
    let Some(words) = order else {
        return Ok(());
    };
    if let Operand::At(register) = words.less
        && is_index(facts, register)
        && may_grow(marks, facts, order, register)
    {
        push_claim(known, growing_by(register, 1))?;
    }
    if let Operand::At(register) = words.more
        && is_index(facts, register)
        && may_shrink(marks, facts, order, register)
    {
        push_claim(known, growing_by(register, u64::MAX))?;
    }
    Ok(())
}

/// What blocks write each register, the last one that leads back to each block, and the marks of registers that hold whole words alone.
#[derive(Drop)]
struct Writing<'a> {
    blocks: Vec<Few<usize>>,
    backs: Vec<Option<usize>>,
    marks: &'a [bool],
}

/// How many blocks write the register.
fn writes_of(writing: &Writing<'_>, register: u32) -> usize {
    match writing.blocks.get(register as usize) {
        Some(blocks) => blocks.len(),
        None => 0,
    }
}

/// How many kinds of facts are claimed before this one. Of words, those may grow that are written more than once.
fn rank(writing: &Writing<'_>, fact: &Fact) -> u32 {
    match fact.value {
        Expression::Linear(_, _, _, _) | Expression::Growing(_, _) => 0,
        Expression::Same(_) => 2,
        Expression::Operated(Operation::Compare(_, _), _, _) => 3,
        _ => {
            if !reads(fact.register, fact.value) {
                1
            } else if writes_of(writing, fact.register) > 1 {
                0
            } else {
                2
            }
        }
    }
}

/// Whether one of the blocks from the first to the last writes the register.
fn is_written(writing: &Writing<'_>, register: u32, first: usize, last: usize) -> bool {
    match writing.blocks.get(register as usize) {
        Some(blocks) => blocks
            .as_slice()
            .iter()
            .any(|block| first <= *block && *block <= last),
        None => false,
    }
}

fn is_changed(writing: &Writing<'_>, operand: Operand<u32>, first: usize, last: usize) -> bool {
    match operand {
        Operand::At(register) => is_written(writing, register, first, last),
        _ => false,
    }
}

/// Whether the fact names a register that is written between a block and the last one that leads back there.
fn is_lost(writing: &Writing<'_>, block: usize, fact: &Fact) -> bool {
    let last = match writing.backs.get(block) {
        Some(Some(last)) => *last,
        _ => return false,
    };
    if is_written(writing, fact.register, block, last) {
        return true;
    }
    match fact.value {
        Expression::Same(operand)
        | Expression::Extended(_, operand, _)
        | Expression::Loaded(_, operand, _) => is_changed(writing, operand, block, last),
        Expression::Operated(_, left, right) => {
            is_changed(writing, left, block, last) || is_changed(writing, right, block, last)
        }
        _ => false,
    }
}

fn claim_rank(
    known: &mut Vec<Fact>,
    writing: &Writing<'_>,
    block: usize,
    facts: &[Fact],
    wanted: u32,
) -> Result<(), AllocError> {
    for fact in facts {
        if rank(writing, fact) == wanted && (wanted == 0 || !is_lost(writing, block, fact)) {
            push_claim(known, *fact)?;
        }
    }
    Ok(())
}

/// What is claimed by what is known on the first way to a block; what is linear before all else.
fn first_claim(
    alloc: Global,
    writing: &Writing<'_>,
    block: usize,
    facts: &[Fact],
    order: &Option<Order>,
) -> Result<Vec<Fact>, AllocError> {
    let mut known = Vec::with_capacity(alloc, facts.len().min(CLAIMS))?;
    claim_growing(&mut known, writing.marks, facts, order)?;
    claim_rank(&mut known, writing, block, facts, 0)?;
    for linear in facts {
        claim_copies(&mut known, facts, linear)?;
    }
    for wanted in 1..4 {
        claim_rank(&mut known, writing, block, facts, wanted)?;
    }
    Ok(known)
}

/// Leaves those of the facts that are known on one more way; none where they become fewer too often. Says whether they do.
fn narrow(marks: &[bool], claim: &mut Claim, facts: &[Fact], order: &Option<Order>) -> bool {
    let Some(known) = &mut claim.facts else {
        return false;
    };
    let before = known.len();
    known.retain(|fact| is_known(marks, facts, order, fact));
    if known.len() == before {
        return false;
    }
    if claim.changes >= CHANGES {
        known.clear();
    }
    claim.changes = claim.changes.saturating_add(1);
    true
}

/// One more way leads to the block, on which these facts are known; answers its number if that changes what is claimed of it, and none that a block has if not.
fn meet(
    alloc: Global,
    writing: &Writing<'_>,
    claims: &mut [Claim],
    block: usize,
    facts: &[Fact],
    order: &Option<Order>,
) -> Result<usize, AllocError> {
    let Some(claim) = claims.get_mut(block) else {
        return Ok(usize::MAX);
    };
    let changes = if claim.facts.is_some() {
        narrow(writing.marks, claim, facts, order)
    } else {
        claim.facts = Some(first_claim(alloc, writing, block, facts, order)?);
        true
    };
    claim.is_new = claim.is_new || changes;
    Ok(if changes { block } else { usize::MAX })
}

/// Goes on from the end of a block; says which is the first of the blocks that it leads to of which less is claimed now.
fn lead(
    alloc: Global,
    writing: &Writing<'_>,
    claims: &mut [Claim],
    jump: &Jump<u32>,
    facts: &[Fact],
) -> Result<usize, AllocError> {
    match jump {
        Jump::Goto(block) => meet(alloc, writing, claims, *block, facts, &None),
        Jump::Branch { on, met, otherwise } => {
            let first = meet(alloc, writing, claims, *met, facts, &order_met(on))?;
            let second = meet(alloc, writing, claims, *otherwise, facts, &order_missed(on))?;
            Ok(first.min(second))
        }
        Jump::Return(_) | Jump::Halt => Ok(usize::MAX),
    }
}

/// Puts in what is known where a block begins, if that is less than when the block was gone through; says whether it is.
fn begin(claims: &mut [Claim], block: usize, along: &mut Along) -> Result<bool, AllocError> {
    along.has_changed = false;
    let Some(claim) = claims.get_mut(block) else {
        return Ok(false);
    };
    let is_new = claim.is_new;
    claim.is_new = false;
    match &claim.facts {
        Some(known) if is_new => {
            along.facts.clear();
            along.facts.extend_from_slice(known.as_slice())?;
            Ok(true)
        }
        _ => Ok(false),
    }
}

/// Goes through a block, if that is due, from what is known where it begins to the blocks that it leads to; says which block is next.
fn spread(
    alloc: Global,
    writing: &Writing<'_>,
    claims: &mut [Claim],
    along: &mut Along,
    registers: u32,
    number: usize,
    block: &Block<u32>,
) -> Result<usize, AllocError> {
    let next = number.saturating_add(1);
    if !begin(claims, number, along)? {
        return Ok(next);
    }
    pass_lines(alloc, along, registers, block.lines.as_slice())?;
    if let Some(claim) = claims.get_mut(number) {
        claim.has_changed = along.has_changed;
    }
    let first = lead(alloc, writing, claims, &block.jump, along.facts.as_slice())?;
    Ok(first.min(next))
}

/// Goes through the blocks in the order of the text, and back to the first of those of which less is claimed than when they were gone through, until there is none.
fn spread_all(
    alloc: Global,
    writing: &Writing<'_>,
    claims: &mut [Claim],
    along: &mut Along,
    registers: u32,
    blocks: &[Block<u32>],
) -> Result<(), AllocError> {
    let mut number = 0usize;
    for _ in 0..blocks.len().saturating_mul(STEPS_A_BLOCK) {
        match blocks.get(number) {
            Some(block) => {
                number = spread(alloc, writing, claims, along, registers, number, block)?;
            }
            None => return Ok(()),
        }
    }
    Ok(())
}

fn note_write(
    writes: &mut [Few<usize>],
    number: usize,
    line: &Line<u32>,
) -> Result<(), AllocError> {
    if let Some(register) = line_writes(line) {
        if let Some(blocks) = writes.get_mut(register as usize) {
            if blocks.as_slice().last() != Some(&number) {
                blocks.push(number)?;
            }
        }
    }
    Ok(())
}

fn note_back(backs: &mut [Option<usize>], number: usize, to: Option<usize>) {
    if let Some(to) = to {
        if to <= number {
            if let Some(back) = backs.get_mut(to) {
                *back = Some(number);
            }
        }
    }
}

fn note_block(
    writing: &mut Writing<'_>,
    number: usize,
    block: &Block<u32>,
) -> Result<(), AllocError> {
    for line in block.lines.as_slice() {
        note_write(writing.blocks.as_mut_slice(), number, line)?;
    }
    note_back(
        writing.backs.as_mut_slice(),
        number,
        successor(&block.jump, 0),
    );
    note_back(
        writing.backs.as_mut_slice(),
        number,
        successor(&block.jump, 1),
    );
    Ok(())
}

fn no_writes(alloc: Global, registers: u32) -> Result<Vec<Few<usize>>, AllocError> {
    let mut blocks = Vec::with_capacity(alloc, registers as usize)?;
    for _ in 0..registers {
        blocks.push(Few::new(alloc))?;
    }
    Ok(blocks)
}

fn writing_of<'a>(
    alloc: Global,
    marks: &'a [bool],
    registers: u32,
    blocks: &[Block<u32>],
) -> Result<Writing<'a>, AllocError> {
    let mut backs = Vec::new(alloc);
    backs.resize(blocks.len(), None)?;
    let mut writing = Writing {
        blocks: no_writes(alloc, registers)?,
        backs,
        marks,
    };
    for (number, block) in blocks.iter().enumerate() {
        note_block(&mut writing, number, block)?;
    }
    Ok(writing)
}

/// Nothing is known where the code begins, and no way leads to another block so far.
fn first_claims(alloc: Global, blocks: usize) -> Result<Vec<Claim>, AllocError> {
    let mut claims = Vec::with_capacity(alloc, blocks)?;
    for number in 0..blocks {
        let facts = if number == 0 {
            Some(Vec::new(alloc))
        } else {
            None
        };
        claims.push(Claim {
            facts,
            is_new: true,
            changes: 0,
            has_changed: false,
        })?;
    }
    Ok(claims)
}

fn listed(alloc: Global, claims: Vec<Claim>) -> Result<Vec<Seq<Fact>>, AllocError> {
    let mut lists = Vec::with_capacity(alloc, claims.len())?;
    for claim in claims {
        lists.push(match claim.facts {
            Some(facts) => Seq::from_vec(facts),
            None => Seq::new(alloc),
        })?;
    }
    Ok(lists)
}

/// The facts claimed where each block begins; none where no line becomes another by them. Of a single block nothing is claimed.
///
/// # Errors
///
/// Only where memory was refused.
pub(crate) fn claims(
    alloc: Global,
    marks: &[bool],
    registers: u32,
    blocks: &[Block<u32>],
) -> Result<Option<Vec<Seq<Fact>>>, AllocError> {
    if blocks.len() < 2 {
        return Ok(Some(Vec::new(alloc)));
    }
    let mut claims = first_claims(alloc, blocks.len())?;
    let writing = writing_of(alloc, marks, registers, blocks)?;
    let mut along = Along {
        facts: Vec::with_capacity(alloc, ROOM)?,
        has_changed: false,
    };
    spread_all(
        alloc,
        &writing,
        claims.as_mut_slice(),
        &mut along,
        registers,
        blocks,
    )?;
    if claims.iter().any(|claim| claim.may_change()) {
        Ok(Some(listed(alloc, claims)?))
    } else {
        Ok(None)
    }
}
