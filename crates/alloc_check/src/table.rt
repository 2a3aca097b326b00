//! Whose value each place holds, in a table: asking and writing take the same time however many places there are.
ghost use Rattle.std.specs.Prelude.{◌≡◌, ◌<◌, ◌≤◌, ◌+◌, ◌^◌, ℕ, true, length, if◌then◌else◌, None, IfOk, IsTrue, slice_get, nat_le, ◌&&◌};
ghost use Rattle.std.specs.List.{list_all};
ghost use Rattle.rv_isa.specs.declared.abi.TheConstants.{LAST_SAVED};
ghost use Rattle.vcode.specs.declared.place.Location.TheVariants.{Register};
ghost use Rattle.vcode.specs.Prelude.{is_callers};
ghost use Rattle.alloc_check.specs.Prelude.{nobody, known, nowhere, standing, own_kept, where_held, exists_in, item, cell_at, first_at, latest, counts, own_of, in_table, forgets, Forgotten, IsFirst, IsTable, Rewrites, put_in, move_in, also_in};

use crate::first::{First, MACHINE, empty, has_cell, item};
use certificates::{Equality, Transfer};
use rv_isa::abi;
use std::alloc::{AllocError, Global};
use vcode::Location;

/// The virtual register whose value a place has held since a time, if it holds one.
#[derive(Clone, Copy)]
pub(crate) struct Held {
    owner: Option<u32>,
    since: usize,
}

/// What a table is for: so many virtual registers, and what holds at the start of every block.
#[derive(Clone, Copy)]
pub(crate) struct Ground<'a> {
    pub(crate) registers: u32,
    pub(crate) everywhere: &'a [Equality],
}

/// Whose value each place holds: what became of it since the block began, or else what it holds at the start of every block. Its owner counts as long as that
/// was not written since.
#[derive(Drop)]
pub(crate) struct OwnerTable {
    machine: Vec<Option<Held>>,
    slots: Vec<Option<Held>>,
    written: Vec<usize>,
    begun: usize,
    first: First,
}

fn is_between(first: u8, last: u8, register: usize) -> bool
    ensures { result ≡ (nat_le first register && nat_le register last) }
{
    usize::from(first) <= register && register <= usize::from(last)
}

fn is_callers(register: usize) -> bool
    ensures { result ≡ is_callers (Register register) }
{
    register == usize::from(abi::RETURN_ADDRESS)
        || is_between(abi::FIRST_TEMPORARY, abi::LAST_TEMPORARY, register)
        || is_between(abi::FIRST_ARGUMENT, abi::LAST_ARGUMENT, register)
        || is_between(abi::FIRST_SCRATCH, abi::JUMP_SCRATCH, register)
}

/// What is known of a register of the machine after a call at that time.
fn kept(register: usize, held: Option<Held>, time: usize) -> Option<Held>
    ensures { result ≡ forgets time register held }
{
    if is_callers(register) {
        Some(Held {
            owner: None,
            since: time,
        })
    } else {
        held
    }
}

/// Takes out what the caller's registers hold.
fn forget_callers(cells: &mut [Option<Held>], time: usize)
    ensures { Forgotten time cells.new cells.old }
{
    for register in 0..cells.len() {
        let held = item(cells, register);
        cells[register] = kept(register, held, time);
    }
}

fn unwritten(alloc: Global, count: usize) -> Result<Vec<usize>, AllocError>
    ensures count { IfOk result (λ v. length v.items ≡ count) }
    ensures zero { IfOk result (λ v. (k w : ℕ) → slice_get v.items k ≡ Some w → w ≤ 0) }
{
    let mut times = Vec::new(alloc);
    times.resize(count, 0)?;
    Ok(times)
}

impl OwnerTable {
    /// A table in which each place holds what it does at the start of every block.
    ///
    /// # Errors
    ///
    /// Only where memory was refused.
    pub(crate) fn new(alloc: Global, ground: &Ground) -> Result<OwnerTable, AllocError>
        requires { list_all (exists_in ground.now.registers) ground.now.everywhere.now ≡ true }
        ensures own { IfOk result (λ t. own_of t ≡ known ground.now.everywhere.now nobody) }
        ensures table { IfOk result (λ t. IsTable ground.now.registers ground.now.everywhere.now 0 t) }
    {
        let first = First::new(alloc, ground.registers, ground.everywhere)?;
        let machine = empty(alloc, MACHINE)?;
        let slots = empty(alloc, ground.registers as usize)?;
        let written = unwritten(alloc, ground.registers as usize)?;
        Ok(OwnerTable {
            machine,
            slots,
            written,
            begun: 0,
            first,
        })
    }

    fn cell(&self, place: Location) -> Option<Held>
        ensures { result ≡ cell_at self.now place }
    {
        match place {
            Location::Register(number) => item(&self.machine, number as usize),
            Location::Slot(slot) => item(&self.slots, slot as usize),
        }
    }

    fn counts(&self, since: usize, register: u32) -> bool
        ensures { result ≡ counts self.now.written.items since register }
    {
        match self.written.get(register as usize) {
            Some(written) => *written <= since,
            None => false,
        }
    }

    /// What is known last of a place.
    fn latest(&self, place: Location) -> Held
        ensures { result ≡ latest self.now.begun (cell_at self.now place) (first_at self.now.first place) }
    {
        let first = Held {
            owner: self.first.owner(place),
            since: self.begun,
        };
        match self.cell(place) {
            Some(held) => {
                if self.begun <= held.since {
                    held
                } else {
                    first
                }
            }
            None => first,
        }
    }

    /// The virtual register whose value a place holds.
    pub(crate) fn owner(&self, place: Location) -> Option<u32>
        ensures { result ≡ own_of self.now place }
    {
        let held = self.latest(place);
        match held.owner {
            Some(register) => {
                if self.counts(held.since, register) {
                    Some(register)
                } else {
                    None
                }
            }
            None => None,
        }
    }

    /// The virtual register whose value a place holds at the start of every block.
    pub(crate) fn first_owner(&self, ground: &Ground, place: Location) -> Option<u32>
        requires { IsFirst ground.now.registers ground.now.everywhere.now self.now.first }
        ensures { result ≡ known ground.now.everywhere.now nobody place }
    {
        self.first.owner(place)
    }

    /// The place of a virtual register at the start of every block.
    pub(crate) fn first_place(&self, ground: &Ground, register: u32) -> Option<Location>
        requires { IsFirst ground.now.registers ground.now.everywhere.now self.now.first }
        ensures { result ≡ standing ground.now.everywhere.now nowhere register }
    {
        self.first.place(register)
    }

    fn write(&mut self, registers: u32, place: Location, held: Held)
        requires inside { IsTrue (in_table registers place) }
        requires machine { length self.old.machine.items ≡ LAST_SAVED + 1 }
        requires slots { length self.old.slots.items ≡ registers }
        ensures { Rewrites place held self.old self.new }
    {
        match place {
            Location::Register(number) => self.machine[number as usize] = Some(held),
            Location::Slot(slot) => self.slots[slot as usize] = Some(held),
        }
    }

    /// A block begins after this time: each place holds what it does at the start of every block.
    pub(crate) fn begin(&mut self, ground: &Ground, time: usize)
        requires table { IsTable ground.now.registers ground.now.everywhere.now time self.old }
        requires room { time + 1 < 2 ^ 64 }
        ensures own { own_of self.new ≡ known ground.now.everywhere.now nobody }
        ensures table { IsTable ground.now.registers ground.now.everywhere.now (time + 1) self.new }
    {
        self.begun = time + 1;
    }

    /// The register is written, at the next time, and its value is in that place alone. Answers false where the table has no room for one of them.
    pub(crate) fn put(
        &mut self,
        ground: &Ground,
        place: Location,
        register: u32,
        time: usize,
    ) -> bool
        requires table { IsTable ground.now.registers ground.now.everywhere.now time self.old }
        requires room { time + 1 < 2 ^ 64 }
        ensures own { where_held result (own_of self.new) ≡ put_in ground.now.registers place register (own_of self.old) }
        ensures table { IsTable ground.now.registers ground.now.everywhere.now (time + 1) self.new }
    {
        if !has_cell(ground.registers, place) || register >= ground.registers {
            return false;
        }
        let held = Held {
            owner: Some(register),
            since: time + 1,
        };
        self.write(ground.registers, place, held);
        self.written[register as usize] = time + 1;
        true
    }

    /// The register's value is known to be in that place too. Answers false where the table has no room for one of them.
    pub(crate) fn also(&mut self, ground: &Ground, equality: Equality, time: usize) -> bool
        requires table { IsTable ground.now.registers ground.now.everywhere.now time self.old }
        ensures own { where_held result (own_of self.new) ≡ also_in ground.now.registers equality (own_of self.old) }
        ensures table { IsTable ground.now.registers ground.now.everywhere.now time self.new }
    {
        let register = equality.register;
        if !has_cell(ground.registers, equality.place) || register >= ground.registers {
            return false;
        }
        let held = Held {
            owner: Some(register),
            since: time,
        };
        self.write(ground.registers, equality.place, held);
        true
    }

    /// What a place holds is moved to another. Answers false where the table has no room for that.
    pub(crate) fn transfer(&mut self, ground: &Ground, transfer: Transfer, time: usize) -> bool
        requires table { IsTable ground.now.registers ground.now.everywhere.now time self.old }
        ensures own { where_held result (own_of self.new) ≡ move_in ground.now.registers transfer (own_of self.old) }
        ensures table { IsTable ground.now.registers ground.now.everywhere.now time self.new }
    {
        if !has_cell(ground.registers, transfer.to) {
            return false;
        }
        let held = Held {
            owner: self.owner(transfer.from),
            since: time,
        };
        self.write(ground.registers, transfer.to, held);
        true
    }

    /// A call is made: the caller's registers are forgotten.
    pub(crate) fn call(&mut self, ground: &Ground, time: usize)
        requires table { IsTable ground.now.registers ground.now.everywhere.now time self.old }
        ensures own { own_of self.new ≡ own_kept (own_of self.old) }
        ensures table { IsTable ground.now.registers ground.now.everywhere.now time self.new }
    {
        forget_callers(self.machine.as_mut_slice(), time);
    }
}
