//! Runs in hand, which are done piece by piece.
ghost use Rattle.std.specs.Prelude.{◌≡◌, ◌+◌, ℕ, [], map, true, false, Err, IfOk, IfSome, MatchResult, Some, is_some};
ghost use Rattle.il_ast.specs.declared.value.Value.TheVariants.{Pointer};
ghost use Rattle.il_ast.specs.Prelude.{meaning, load, size_at};
ghost use Rattle.obj_link.specs.Prelude.{program, are_arguments};
ghost use Rattle.il_interp.specs.declared.error.RunError.TheVariants.{Words};
ghost use Rattle.il_interp.specs.Begun.{Refuses};
ghost use Rattle.il_interp.specs.Machine.{begun_as, comes_to, held, left_of, memory_of, put_before, value_of};

use crate::error::RunError;
use crate::interpret::begin;
use crate::prepare::prepare;
use crate::prepared::Prepared;
use crate::run::go_on;
use crate::state::{Frame, State};
use crate::trace::{Place, Turn, Watch, go_on_watched};
use il_ast::{End, Size, Value};
use obj_link::Linked;
use obj_link::arguments::are_arguments;
use std::alloc::{AllocError, Global};

/// A run of a program that was begun. It does turns where [`Running::go_on`] is called, and holds what they put out until [`Running::clear_output`] is.
#[derive(Drop)]
pub struct Running<'a> {
    prepared: Prepared<'a>,
    state: State,
    watch: Option<Watch>,
}

/// Begins to run a program with these argument words. Answers the run, or the end where it is over at once.
///
/// # Errors
///
/// `RunError::Words` says that the words pass a limit (1,024 words; 65,536 bytes with their closing zeros; no byte 0), `RunError::Memory` that memory was refused.
pub fn begin_to_run<'a>(
    alloc: Global,
    linked: &'a Linked<'a>,
    words: &[&[u8]],
) -> Result<Result<Running<'a>, End>, RunError>
    ensures means { IfOk result (λ begun. (n : ℕ) → meaning (program linked.now) (map (λ w. w.now) words.now) n ≡ begun_as begun n) }
    ensures empty { IfOk result (λ begun. IfOk begun (λ r. held r ≡ [])) }
    ensures fit { IfOk result (λ _. are_arguments (map (λ w. w.now) words.now) ≡ true) }
    ensures refused { are_arguments (map (λ w. w.now) words.now) ≡ false → result ≡ Err Words }
    ensures truth { MatchResult result (λ _. Unit {0}) (λ error. Refuses error (map (λ w. w.now) words.now)) }
{
    if !are_arguments(words) {
        return Err(RunError::Words);
    }
    let prepared = prepare(alloc, linked)?;
    match begin(alloc, &prepared, words)? {
        Ok(state) => Ok(Ok(Running {
            prepared,
            state,
            watch: None,
        })),
        Err(end) => Ok(Err(end)),
    }
}

impl Running<'_> {
    /// Does at most so many turns. Answers the end, where the run is over.
    ///
    /// # Errors
    ///
    /// Only where memory was refused. The run is of no use then.
    pub fn go_on(&mut self, alloc: Global, turns: u64) -> Result<Option<End>, AllocError>
        ensures { IfOk result (λ end. (n : ℕ) → comes_to self.old (turns + n) ≡ left_of self.new end n) }
    {
        match &mut self.watch {
            Some(watch) => go_on_watched(alloc, &self.prepared, &mut self.state, watch, turns),
            None => go_on(alloc, &self.prepared, &mut self.state, turns),
        }
    }

    /// What the program has put out since that was last forgotten.
    pub fn output(&self) -> &[u8]
        ensures { result.now ≡ held self.now }
    {
        self.state.output.bytes()
    }

    /// Forgets what the program has put out.
    pub fn clear_output(&mut self)
        ensures before { (n : ℕ) → comes_to self.old n ≡ put_before (held self.old) (comes_to self.new n) }
        ensures empty { held self.new ≡ [] }
    {
        self.state.output.clear();
    }

    /// From here on, remembers where turns are due, and the last `last` of them.
    pub fn watch(&mut self, alloc: Global, last: usize)
        ensures same { (n : ℕ) → comes_to self.new n ≡ comes_to self.old n }
        ensures held { held self.new ≡ held self.old }
    {
        self.watch = Some(Watch::new(alloc, &self.state, last));
    }

    /// Where the last turn was due, or where the next one is, if the run goes on. None where the run isn't watched.
    pub fn place(&self) -> Option<Place> {
        self.watch.as_ref().map(|watch| watch.place())
    }

    /// Of the last turns before that one, the one with this number, counted from 0 for the oldest that is remembered.
    pub fn turn(&self, number: usize) -> Option<Turn> {
        self.watch.as_ref()?.turn(number)
    }

    /// How many turns before that one are remembered.
    pub fn turns(&self) -> usize {
        self.watch.as_ref().map_or(0, |watch| watch.count())
    }

    /// How many blocks of memory there were when it began to be watched: those of data, argument words and their list.
    pub fn start_blocks(&self) -> u128 {
        self.watch.as_ref().map_or(0, |watch| watch.first())
    }

    /// Where a block of memory was made, if an `alloc` made it and that is remembered.
    pub fn maker(&self, block: u128) -> Option<Place> {
        self.watch.as_ref()?.maker(block)
    }

    /// How many bytes a block of memory has, where it is live.
    pub fn block_size(&self, block: u128) -> Option<usize>
        ensures { result ≡ size_at (memory_of self.now) block }
    {
        self.state.memory.size(block)
    }

    /// Whether a byte of a block of memory holds a number.
    pub fn is_byte(&self, block: u128, offset: u64) -> bool
        ensures { result ≡ is_some (load (memory_of self.now) 1 (Pointer block offset)) }
    {
        self.state
            .memory
            .load(Value::Pointer { block, offset }, Size::Byte)
            .is_some()
    }

    /// Whether the activation that had the last turn is still there: it isn't where that turn was its return.
    fn is_there(&self) -> bool {
        let depth = self.state.below.len();
        self.watch
            .as_ref()
            .is_none_or(|watch| watch.depth() == depth)
    }

    /// What a temporary of the activation holds that had the last turn, if it has a value.
    pub fn value(&self, temp: usize) -> Option<Value>
        ensures { IfSome result (λ value. value_of self.now temp ≡ Some value) }
    {
        if self.is_there() {
            self.state.frame.temps.get(temp)
        } else {
            None
        }
    }

    /// How many activations wait for the one that had the last turn.
    pub fn callers(&self) -> usize {
        let below = self.state.below.len();
        if self.is_there() {
            below
        } else {
            below.saturating_add(1)
        }
    }

    /// Where the call stands that the activation waits for which had the last turn, for the number 0; for the number 1 the call that made that one, and so on.
    pub fn caller(&self, number: usize) -> Option<Place> {
        if self.is_there() {
            return Some(call_of(self.state.below.get(number)?));
        }
        match number.checked_sub(1) {
            Some(below) => Some(call_of(self.state.below.get(below)?)),
            None => Some(call_of(&self.state.frame)),
        }
    }
}

/// Where the call stands that an activation waits for: right before its next instruction.
fn call_of(frame: &Frame) -> Place {
    Place {
        function: frame.function,
        block: frame.block,
        next: frame.next.saturating_sub(1),
    }
}
