//! What is done where registers of the machine hold values in front of all calls: the values are moved to their own places behind.
use crate::bare_ways::fronts::Fronts;
use crate::bare_ways::holders::Holders;
use crate::places::candidates::Ground;
use crate::splitting::credit::{Credit, credit_of};
use crate::splitting::splits::{Begin, Entry, Move, Splits, Stay, Way};
use crate::splitting::splitter::Splitter;
use cfg_live::Reads;
use cfg_live::reads::{jump_reads, line_reads};
use cfg_live::uses::line_writes;
use std::alloc::{AllocError, Global};
use vcode::{Line, Location};

/// What is looked at.
#[derive(Clone, Copy)]
struct Scene<'a> {
    ground: Ground<'a>,
    fronts: &'a Fronts,
    holders: &'a Holders,
}

impl<'a> Scene<'a> {
    fn is_inside(&self, block: usize) -> bool {
        self.fronts.inside.contains(&block)
    }

    fn is_head(&self, block: usize) -> bool {
        self.fronts.heads.contains(&block)
    }

    fn is_inside_at(&self, point: usize) -> bool {
        self.is_inside(self.ground.facts.text.block_of(point))
    }

    /// Whether the point is the first one of a block behind.
    fn is_head_at(&self, point: usize) -> bool {
        let block = self.ground.facts.text.block_of(point);
        let stretch = self.ground.facts.text.stretch(block);
        stretch.is_some_and(|stretch| stretch.first == point) && self.is_head(block)
    }

    fn is_held(&self, register: u32) -> bool {
        self.holders.room(register).is_some()
    }

    /// Whether the move isn't made any more.
    fn is_over(&self, one: &Move) -> bool {
        self.is_held(one.register)
            && (self.is_inside_at(one.point)
                || (one.way == Way::Save && self.is_head_at(one.point)))
    }
}

/// What was done already, but for what is done otherwise now.
fn kept(alloc: Global, scene: Scene, old: &Splits) -> Result<Splits, AllocError> {
    let stays = old.stays.iter().copied();
    let begins = old.begins.iter().copied();
    let moves = old.moves.iter().copied();
    let entries = old.entries.iter().copied();
    let mut splits = Splits::new(alloc);
    splits.stays.extend(stays.filter(|stay| !scene.is_held(stay.register)
        || !scene.is_inside_at(stay.point)))?;
    splits.begins.extend(begins.filter(|begin| {
        let is_front = scene.is_inside(begin.block) || scene.is_head(begin.block);
        !scene.is_held(begin.register) || !is_front
    }))?;
    splits
        .moves
        .extend(moves.filter(|one| !scene.is_over(one)))?;
    splits
        .entries
        .extend(entries.filter(|entry| !scene.is_held(entry.register)))?;
    Ok(splits)
}

/// What is live where the block begins stands in its register of the machine.
fn push_begins(splits: &mut Splits, scene: Scene, block: usize) -> Result<(), AllocError> {
    for start in scene.ground.facts.starts.of(block) {
        let register = start.register;
        if let Some(room) = scene.holders.room(register) {
            splits.begins.push(Begin {
                block,
                register,
                room,
                is_saved: false,
            })?;
        }
    }
    Ok(())
}

/// What the point reads and writes stands in its register of the machine.
fn push_stays(
    splits: &mut Splits,
    scene: Scene,
    point: usize,
    reads: Reads,
    written: Option<u32>,
) -> Result<(), AllocError> {
    for register in [reads.first, reads.second, written] {
        if let Some(register) = register
            && let Some(room) = scene.holders.room(register)
        {
            splits.stays.push(Stay {
                point,
                register,
                room,
            })?;
        }
    }
    Ok(())
}

/// What the block reads and writes stands in its register of the machine, and what is live where it begins.
fn push_block(splits: &mut Splits, scene: Scene, number: usize) -> Result<(), AllocError> {
    push_begins(splits, scene, number)?;
    let blocks = scene.ground.function.code.blocks.as_slice();
    let (Some(stretch), Some(block)) = (scene.ground.facts.text.stretch(number), blocks.get(number))
    else {
        return Ok(());
    };
    let mut point = stretch.first;
    for line in block.lines.as_slice() {
        if !matches!(line, Line::Tick { .. }) {
            push_stays(splits, scene, point, line_reads(line), line_writes(line))?;
            point = point.saturating_add(1);
        }
    }
    push_stays(splits, scene, point, jump_reads(&block.jump), None)
}

/// Adds the moves of a value that comes to a block behind: `save` moves it to its own place, and where it stands in another register of the machine it is loaded into that.
/// False where they aren't paid for.
fn push_coming(
    splits: &mut Splits,
    credit: &mut Credit,
    old: &Splits,
    save: Move,
    begin: Option<Begin>,
) -> Result<bool, AllocError> {
    let is_paid = begin.is_some()
        && old.moves.iter().any(|one| {
            one.point == save.point && one.register == save.register && one.way == Way::Save
        });
    let moved = begin.filter(|begin| begin.room != save.room);
    if is_paid || moved.is_some() || begin.is_none_or(|begin| begin.is_saved) {
        splits.moves.push(save)?;
        if !is_paid && !credit.pay(save.point) {
            return Ok(false);
        }
    }
    let Some(begin) = moved else {
        return Ok(true);
    };
    splits.moves.push(Move {
        way: Way::Load,
        room: begin.room,
        ..save
    })?;
    Ok(credit.pay(save.point))
}

/// Adds the moves at the begin of a block behind; false where they aren't paid for.
fn push_head(
    splits: &mut Splits,
    credit: &mut Credit,
    old: &Splits,
    scene: Scene,
    block: usize,
) -> Result<bool, AllocError> {
    let Some(stretch) = scene.ground.facts.text.stretch(block) else {
        return Ok(false);
    };
    push_begins(splits, scene, block)?;
    for start in scene.ground.facts.starts.of(block) {
        let register = start.register;
        if let Some(room) = scene.holders.room(register) {
            let save = Move {
                point: stretch.first,
                way: Way::Save,
                register,
                room,
            };
            // where splitting has it at the begin of the block, and whether its own place has the value too
            let mut begins = old.begins.iter().copied();
            let begin = begins.find(|begin| begin.is_at(block, register));
            if !push_coming(splits, credit, old, save, begin)? {
                return Ok(false);
            }
        }
    }
    Ok(true)
}

/// Puts the values where the registers of the machine are, in front of all calls, and moves them to their own places behind; nothing is done where that isn't paid for.
pub(crate) fn leave(
    alloc: Global,
    splitter: &mut Splitter,
    ground: Ground,
    fronts: &Fronts,
    holders: &Holders,
) -> Result<(), AllocError> {
    let scene = Scene {
        ground,
        fronts,
        holders,
    };
    if splitter.credit.is_none() {
        let blocks = ground.function.code.blocks.as_slice();
        splitter.credit = credit_of(alloc, blocks, &ground.facts.text)?;
    }
    let mut splits = kept(alloc, scene, &splitter.splits)?;
    for param in ground.function.code.params.as_slice() {
        let register = param.place;
        if let Some(room) = holders.room(register) {
            splits.entries.push(Entry { register, room })?;
        }
    }
    for number in fronts.inside.iter() {
        push_block(&mut splits, scene, *number)?;
    }
    for block in fronts.heads.iter() {
        if !push_head(
            &mut splits,
            &mut splitter.credit,
            &splitter.splits,
            scene,
            *block,
        )? {
            return Ok(());
        }
    }
    splitter.splits = splits;
    Ok(())
}
