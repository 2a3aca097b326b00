//! What is known of each register.
ghost use Rattle.std.specs.Prelude.{◌≡◌, ◌+◌, ◌*◌, ◌^◌, ◌<◌, ◌≤◌, ℕ, true, false, not, ◌&&◌, ◌||◌, nat_le, length, slice_get, slice_set, IfOk, Some, None, option_map};
ghost use Rattle.propagation.specs.FactTable.{names_it, fact_names, kept_if, cell, is_fresh, stands, counted, facts_of, copy_of, IsTable, IsAtLine, changed, over};

use crate::constants::fact::{DatedFact, Fact};
use std::alloc::{AllocError, Global};
use vcode::Operand;

/// Facts of registers, each with the time since when it is known. A fact counts as long as no register that it names was written since, nor memory, if it
/// asks that; so writing a register takes one step, however many facts name it. Block b begins at time b * 2^64, and each line takes 1.
#[derive(Drop)]
pub struct FactTable {
    pub cells: Vec<Option<DatedFact>>,
    /// when each register was last written
    pub written: Vec<u128>,
    /// when memory was last written
    pub memory: u128,
    /// when the block began
    pub begun: u128,
    pub clock: u128,
}

fn names(operand: &Operand<u32>, register: u32) -> bool
    ensures { result ≡ names_it operand.now register }
{
    match operand {
        Operand::At(place) => *place == register,
        _ => false,
    }
}

fn fact_names(fact: &Fact, register: u32) -> bool
    ensures { result ≡ fact_names fact.now register }
{
    match fact {
        Fact::Same(operand) | Fact::Sum(operand, _) => names(operand, register),
        Fact::Test(test) => names(&test.left, register) || names(&test.right, register),
    }
}

fn cell(cells: &[Option<DatedFact>], register: usize) -> Option<DatedFact>
    ensures { result ≡ cell cells.now register }
{
    match cells.get(register) {
        Some(known) => *known,
        None => None,
    }
}

fn is_fresh(written: &[u128], since: u128, operand: &Operand<u32>) -> bool
    ensures { result ≡ is_fresh written.now since operand.now }
{
    match operand {
        Operand::At(register) => match written.get(*register as usize) {
            Some(last) => *last <= since,
            None => false,
        },
        _ => true,
    }
}

/// What is known of the register that is written, if it doesn't name that.
fn kept(register: u32, known: Option<Fact>, since: u128) -> Option<DatedFact>
    ensures { result ≡ option_map (λ f. record { fact = f; since = since }) (kept_if (λ f. not (fact_names f register)) known) }
{
    match known {
        Some(fact) => {
            if fact_names(&fact, register) {
                None
            } else {
                Some(DatedFact { fact, since })
            }
        }
        None => None,
    }
}

fn set_time(written: &mut Vec<u128>, register: u32, time: u128)
    ensures { written.new.items ≡ slice_set written.old.items register time }
{
    if let Some(last) = written.get_mut(register as usize) {
        *last = time;
    }
}

fn set_cell(cells: &mut Vec<Option<DatedFact>>, register: u32, known: Option<DatedFact>)
    ensures { cells.new.items ≡ slice_set cells.old.items register known }
{
    if let Some(cell) = cells.get_mut(register as usize) {
        *cell = known;
    }
}

impl FactTable {
    /// A table for so many registers, in which nothing is known.
    ///
    /// # Errors
    ///
    /// Only where memory was refused.
    pub(crate) fn new(alloc: Global, registers: u32) -> Result<FactTable, AllocError>
        ensures table { IfOk result (λ t. IsTable t) }
        ensures starts { IfOk result (λ t. t.clock ≡ 0) }
        ensures count { IfOk result (λ t. length t.written.items ≡ registers) }
    {
        let mut cells = Vec::new(alloc);
        cells.resize(registers as usize, None)?;
        let mut written = Vec::new(alloc);
        written.resize(registers as usize, 0)?;
        Ok(FactTable {
            cells,
            written,
            memory: 0,
            begun: 0,
            clock: 0,
        })
    }

    fn stands(&self, known: &DatedFact) -> bool
        ensures { result ≡ stands self.now.written.items self.now.memory known.now.since known.now.fact }
    {
        match &known.fact {
            Fact::Same(operand) | Fact::Sum(operand, _) => {
                is_fresh(&self.written, known.since, operand)
            }
            Fact::Test(test) => {
                is_fresh(&self.written, known.since, &test.left)
                    && is_fresh(&self.written, known.since, &test.right)
                    && self.memory <= known.since
            }
        }
    }

    /// What is known of a register.
    pub(crate) fn fact(&self, register: u32) -> Option<Fact>
        ensures { result ≡ facts_of self.now register }
    {
        match cell(&self.cells, register as usize) {
            Some(known) => {
                if self.begun < known.since && self.stands(&known) {
                    Some(known.fact)
                } else {
                    None
                }
            }
            None => None,
        }
    }

    fn copied(&self, known: &DatedFact) -> Option<Operand<u32>>
        ensures { result ≡ copy_of (counted self.now.written.items self.now.memory self.now.begun (Some known.now)) }
    {
        match &known.fact {
            Fact::Same(operand) => {
                if self.begun < known.since && is_fresh(&self.written, known.since, operand) {
                    Some(*operand)
                } else {
                    None
                }
            }
            Fact::Sum(_, _) => None,
            Fact::Test(_) => None,
        }
    }

    /// What a register is known to be a copy of.
    pub(crate) fn copy(&self, register: u32) -> Option<Operand<u32>>
        ensures { result ≡ copy_of (facts_of self.now register) }
    {
        match self.cells.get(register as usize) {
            Some(Some(known)) => self.copied(known),
            Some(None) => None,
            None => None,
        }
    }

    /// A block begins, and nothing is known.
    pub(crate) fn begin(&mut self, block: usize)
        requires table { IsTable self.old }
        requires later { self.old.clock ≤ block * 2 ^ 64 }
        ensures table { IsTable self.new }
        ensures nothing { (r : ℕ) → facts_of self.new r ≡ None }
        ensures clock { self.new.clock ≡ block * 2 ^ 64 }
        ensures count { length self.new.written.items ≡ length self.old.written.items }
    {
        self.clock = block as u128 * 0x1_0000_0000_0000_0000;
        self.begun = self.clock;
    }

    /// A line begins, which writes memory, or doesn't.
    pub(crate) fn tick(&mut self, memory: bool)
        requires table { IsTable self.old }
        requires runs { self.old.clock + 1 < 2 ^ 128 }
        ensures table { IsAtLine self.new }
        ensures facts { (q : ℕ) → facts_of self.new q ≡ changed memory (facts_of self.old) q }
        ensures clock { self.new.clock ≡ self.old.clock + 1 }
        ensures count { length self.new.written.items ≡ length self.old.written.items }
    {
        self.clock += 1;
        if memory {
            self.memory = self.clock;
        }
    }

    /// The line writes the register, and that is known of it then.
    pub(crate) fn write(&mut self, register: u32, known: Option<Fact>)
        requires { IsAtLine self.old }
        ensures table { IsTable self.new }
        ensures facts { (q : ℕ) → facts_of self.new q ≡ over (length self.old.written.items) register known (facts_of self.old) q }
        ensures clock { self.new.clock ≡ self.old.clock }
        ensures count { length self.new.written.items ≡ length self.old.written.items }
    {
        set_time(&mut self.written, register, self.clock);
        set_cell(&mut self.cells, register, kept(register, known, self.clock));
    }
}
