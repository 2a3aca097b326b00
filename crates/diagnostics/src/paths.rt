//! What some path through a function leaves unassigned.
use crate::label::targets;
use crate::place::{Does, Step};
use bitset::BitSet;
use il_ast::{Block, Func, Label, Temp, Val};
use il_types::label_blocks::block_places;
use std::alloc::{AllocError, Global};

/// The blocks of a function, by the places of their labels, with sets of its temporaries. Each set has one number more, which nothing assigns: it stands for the path
/// itself.
#[derive(Drop)]
pub struct Paths<'a> {
    blocks: &'a [Block],
    places: Vec<Option<usize>>,
    mark: usize,
    /// for each block what is known of it
    known: Vec<Known>,
    /// what is handed on; then what was told
    spare: BitSet,
    /// the places of the blocks that haven't handed on yet what came in
    waiting: Vec<usize>,
}

/// What is known of a block.
#[derive(Drop)]
struct Known {
    /// what some path to its start leaves unassigned
    entered: BitSet,
    /// what it assigns
    assigned: BitSet,
    /// whether it hasn't handed on yet what came in
    waits: bool,
}

impl<'a> Paths<'a> {
    /// The function's first block is entered with all temporaries unassigned, and no other block is yet.
    pub fn of(alloc: Global, function: &'a Func) -> Result<Paths<'a>, AllocError> {
        let blocks = function.blocks.as_slice();
        let mark = function.temps.len();
        let length = mark.saturating_add(1);
        let mut known = Vec::new(alloc);
        for _ in blocks {
            known.push(Known {
                entered: BitSet::new(alloc, length)?,
                assigned: BitSet::new(alloc, length)?,
                waits: false,
            })?;
        }
        if let Some(entry) = known.get_mut(0) {
            for number in 0..length {
                put_in(&mut entry.entered, number);
            }
        }
        Ok(Paths {
            blocks,
            places: block_places(alloc, blocks)?,
            mark,
            known,
            spare: BitSet::new(alloc, length)?,
            waiting: vec![in alloc; 0usize; 1]?,
        })
    }

    /// Hands what blocks leave unassigned to the blocks behind them, until nothing more comes in anywhere.
    pub fn settle(&mut self, steps: &[Step]) -> Result<(), AllocError> {
        for step in steps {
            if let Does::Assigns(temp) = step.does
                && let Some(block) = self.known.get_mut(step.block)
            {
                put_in(&mut block.assigned, temp.number());
            }
        }
        for _ in 0..usize::MAX {
            let Some(place) = self.waiting.pop() else {
                break;
            };
            self.leave(place);
            if let Some(block) = self.blocks.get(place) {
                for label in targets(block).into_iter().flatten() {
                    self.enter(label)?;
                }
            }
        }
        self.spare.clear();
        Ok(())
    }

    /// Takes what the block at a place leaves unassigned.
    fn leave(&mut self, place: usize) {
        self.spare.clear();
        if let Some(block) = self.known.get_mut(place) {
            block.waits = false;
            let _ = join(&mut self.spare, &block.entered);
            if self.spare.len() == block.assigned.len() {
                self.spare.minus(&block.assigned);
            }
        }
    }

    /// Hands it to the block of a label, which waits where more comes in.
    fn enter(&mut self, label: Label) -> Result<(), AllocError> {
        if let Some(place) = self.place(label)
            && let Some(block) = self.known.get_mut(place)
            && join(&mut block.entered, &self.spare)
            && !block.waits
        {
            block.waits = true;
            self.waiting.push(place)?;
        }
        Ok(())
    }

    /// The place of a label's block.
    fn place(&self, label: Label) -> Option<usize> {
        *self.places.get(label.number())?
    }

    /// Whether the first block leads to the block at a place.
    pub fn is_reached(&self, place: usize) -> bool {
        self.is_entered(place, self.mark)
    }

    /// Whether some path to the block at a place leaves a number unassigned.
    fn is_entered(&self, place: usize, number: usize) -> bool {
        let block = self.known.get(place);
        block.is_some_and(|block| is_in(&block.entered, number))
    }

    /// The temporary that a step reads and some path leaves unassigned, where none was answered before. The steps are asked for in order.
    pub fn first_read(&mut self, step: &Step) -> Option<Temp> {
        match step.does {
            Does::Reads(Val::Temp(temp)) | Does::Returns(Val::Temp(temp))
                if self.is_entered(step.block, temp.number()) => { self.told(temp) }
            Does::Takes(from, Val::Temp(temp)) if self.is_left(from, temp.number()) => {
                self.told(temp)
            }
            Does::Assigns(temp) => {
                if let Some(block) = self.known.get_mut(step.block)
                    && temp.number() < block.entered.len()
                {
                    block.entered.remove(temp.number());
                }
                None
            }
            _ => None,
        }
    }

    /// The temporary, where it wasn't told before.
    fn told(&mut self, temp: Temp) -> Option<Temp> {
        let is_told = is_in(&self.spare, temp.number());
        put_in(&mut self.spare, temp.number());
        (!is_told).then_some(temp)
    }

    /// Whether some path through the block of a label leaves a temporary unassigned.
    fn is_left(&self, label: Label, number: usize) -> bool {
        let block = self.place(label).and_then(|place| self.known.get(place));
        block.is_some_and(|block| {
            is_in(&block.entered, number) && !is_in(&block.assigned, number)
        })
    }
}

/// Joins a set with another. Answers whether it grew.
fn join(set: &mut BitSet, other: &BitSet) -> bool {
    set.len() == other.len() && set.union_into(other)
}

fn is_in(set: &BitSet, number: usize) -> bool {
    number < set.len() && set.contains(number)
}

fn put_in(set: &mut BitSet, number: usize) {
    if number < set.len() {
        set.insert(number);
    }
}
