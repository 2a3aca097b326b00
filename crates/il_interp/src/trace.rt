//! Runs that are watched: where each turn is due, the last ones, and where blocks of memory were made.
ghost use Rattle.std.specs.Prelude.{◌≡◌, ◌+◌, ℕ, IfOk};
ghost use Rattle.il_interp.specs.Machine.{rest_of, machine, program_of};

use crate::prepared::Prepared;
use crate::state::{Frame, State};
use crate::turn::turn;
use il_ast::{Block, Dest, End, Inst, Value};
use obj_link::Linked;
use std::alloc::{AllocError, Global};

/// Of so many blocks of memory, the ones that were made last, it is remembered where they were made.
const MOST_MAKERS: usize = 1_000_000;

/// Where a turn is due.
#[derive(Clone, Copy)]
pub struct Place {
    /// the function by its number
    pub function: usize,
    /// the block by its place in the function
    pub block: usize,
    /// the instruction by its place in the block, or one behind the last for the jump
    pub next: usize,
}

/// A turn that was done.
#[derive(Clone, Copy)]
pub struct Turn {
    pub place: Place,
    /// what its instruction assigned, where that is known at once: of a call it isn't
    pub assigned: Option<Value>,
}

impl Place {
    /// Where a program begins.
    pub fn start(linked: &Linked<'_>) -> Place {
        Place {
            function: linked.main,
            block: 0,
            next: 0,
        }
    }

    /// The block of the text that the turn is due in.
    pub fn in_block<'a>(self, linked: &Linked<'a>) -> Option<&'a Block> {
        let function = linked.functions.as_slice().get(self.function)?;
        function.item.blocks.as_slice().get(self.block)
    }

    /// The instruction that is due, or none where it is the jump.
    pub fn instruction<'a>(self, linked: &Linked<'a>) -> Option<&'a Inst> {
        let block = self.in_block(linked)?;
        Some(&block.insts.as_slice().get(self.next)?.item)
    }

    /// The line of the text at which the turn is due.
    pub fn line(self, linked: &Linked<'_>) -> usize {
        let Some(block) = self.in_block(linked) else {
            return 1;
        };
        match block.insts.as_slice().get(self.next) {
            Some(inst) => inst.line,
            None => block.jump.as_ref().map_or(block.line, |jump| jump.line),
        }
    }
}

/// What is remembered of a run that is watched.
#[derive(Drop)]
pub struct Watch {
    /// where the last turn was due, or the next one where the run goes on
    place: Place,
    /// how many activations waited there
    depth: usize,
    /// how many turns are remembered
    last: usize,
    /// the last turns; once they are as many as are wanted, the next one takes the place of the oldest
    turns: Vec<Turn>,
    oldest: usize,
    /// where blocks of memory were made, by their numbers from `first` on, modulo [`MOST_MAKERS`]
    makers: Vec<Place>,
    first: u128,
    /// how many blocks were made
    made: u128,
}

fn place_of(frame: &Frame) -> Place {
    Place {
        function: frame.function,
        block: frame.block,
        next: frame.next,
    }
}

/// What the instruction at a place assigns, where it isn't a call.
fn assigned_at(linked: &Linked<'_>, place: Place) -> Option<Dest> {
    match place.instruction(linked) {
        Some(Inst::Unary { to, .. } | Inst::Binary { to, .. } | Inst::Alloc { to, .. }) => {
            Some(*to)
        }
        _ => None,
    }
}

/// Where in a list the block with this number has its place, counted from the first one.
fn maker_at(number: u128) -> usize {
    (number % MOST_MAKERS as u128) as usize
}

impl Watch {
    /// Nothing is remembered yet of a run that stands there. Of its turns the last ones will be, so many.
    pub(crate) fn new(alloc: Global, state: &State, last: usize) -> Watch {
        Watch {
            place: place_of(&state.frame),
            depth: state.below.len(),
            last,
            turns: Vec::new(alloc),
            oldest: 0,
            makers: Vec::new(alloc),
            first: state.memory.made(),
            made: state.memory.made(),
        }
    }

    /// Before a turn.
    fn begin(&mut self, state: &State) {
        self.place = place_of(&state.frame);
        self.depth = state.below.len();
        self.made = state.memory.made();
    }

    /// After a turn.
    fn end(&mut self, linked: &Linked<'_>, state: &State) -> Result<(), AllocError> {
        if state.memory.made() > self.made {
            self.note_block()?;
        }
        if self.last == 0 {
            return Ok(());
        }
        let place = self.place;
        let assigned = match assigned_at(linked, place) {
            Some(to) => state.frame.temps.get(to.temp.number()),
            None => None,
        };
        self.note_turn(Turn { place, assigned })
    }

    /// Remembers where the block was made that this turn made.
    fn note_block(&mut self) -> Result<(), AllocError> {
        let at = maker_at(self.made.saturating_sub(self.first));
        match self.makers.get_mut(at) {
            Some(maker) => *maker = self.place,
            None => self.makers.push(self.place)?,
        }
        Ok(())
    }

    fn note_turn(&mut self, turn: Turn) -> Result<(), AllocError> {
        if self.turns.len() < self.last {
            self.turns.push(turn)?;
            return Ok(());
        }
        if let Some(oldest) = self.turns.get_mut(self.oldest) {
            *oldest = turn;
            self.oldest = self.oldest.saturating_add(1);
        }
        if self.oldest >= self.turns.len() {
            self.oldest = 0;
        }
        Ok(())
    }

    /// Where the last turn was due, or where the next one is, if the run goes on.
    pub(crate) fn place(&self) -> Place {
        self.place
    }

    /// How many activations waited at that turn.
    pub(crate) fn depth(&self) -> usize {
        self.depth
    }

    /// How many turns are remembered.
    pub(crate) fn count(&self) -> usize {
        self.turns.len()
    }

    /// How many blocks there were when it began to be watched.
    pub(crate) fn first(&self) -> u128 {
        self.first
    }

    /// Of the last turns the one with this number, counted from 0 for the oldest.
    pub(crate) fn turn(&self, number: usize) -> Option<Turn> {
        let count = self.turns.len();
        if number >= count {
            return None;
        }
        let behind = count - number;
        let at = if self.oldest < behind {
            self.oldest.saturating_add(number)
        } else {
            self.oldest - behind
        };
        self.turns.get(at).copied()
    }

    /// Where the block with this number was made, if that is remembered.
    pub(crate) fn maker(&self, block: u128) -> Option<Place> {
        if block < self.first || self.made.saturating_sub(block) >= MOST_MAKERS as u128 {
            return None;
        }
        self.makers.get(maker_at(block - self.first)).copied()
    }
}

/// Does so many turns, or as many as there are to the end, as [`crate::run::go_on`] does, and remembers what is wanted of them.
pub(crate) fn go_on_watched(
    alloc: Global,
    prepared: &Prepared<'_>,
    state: &mut State,
    watch: &mut Watch,
    turns: u64,
) -> Result<Option<End>, AllocError>
    ensures { IfOk result (λ end. (n : ℕ) → machine (program_of prepared.now) (turns + n) state.old ≡ rest_of (program_of prepared.now) state.new end n) }
{
    let mut values = Vec::new(alloc);
    for _done in 0..turns {
        watch.begin(state);
        match turn(alloc, prepared, state, &mut values)? {
            Some(end) => return Ok(Some(end)),
            None => watch.end(prepared.linked, state)?,
        }
    }
    watch.begin(state);
    Ok(None)
}
