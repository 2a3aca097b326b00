//! What holds at the start of every block, in a table: whose value each place holds, and where each register is.
ghost use Rattle.std.specs.Prelude.{◌≡◌, ◌<◌, ◌+◌, ℕ, true, length, if◌then◌else◌, nat_eq, None, Some, IfOk, IsTrue};
ghost use Rattle.std.specs.List.{list_all};
ghost use Rattle.rv_isa.specs.declared.abi.TheConstants.{LAST_SAVED};
ghost use Rattle.vcode.specs.declared.place.Location.{Location};
ghost use Rattle.vcode.specs.Prelude.{same_location};
ghost use Rattle.alloc_check.specs.Prelude.{exists_in, nobody, own_also, known, nowhere, stand_also, standing, item, in_table, first_at, stands_at, HasRoom, IsFirst};

use certificates::Equality;
use rv_isa::abi;
use std::alloc::{AllocError, Global};
use vcode::Location;

/// How many registers have a cell: those that code may name are below.
pub(crate) const MACHINE: usize = abi::LAST_SAVED as usize + 1;

/// Whose value each place holds and where each register is, where blocks begin.
#[derive(Drop)]
pub(crate) struct First {
    machine: Vec<Option<u32>>,
    slots: Vec<Option<u32>>,
    places: Vec<Option<Location>>,
}

/// The item with that number; none where there is none.
pub(crate) fn item<T: Copy>(items: &[Option<T>], at: usize) -> Option<T>
    ensures { result ≡ item items.now at }
{
    match items.get(at) {
        Some(item) => *item,
        None => None,
    }
}

/// So many cells with nothing in them.
///
/// # Errors
///
/// Only where memory was refused.
pub(crate) fn empty<T: Copy + Drop>(
    alloc: Global,
    count: usize,
) -> Result<Vec<Option<T>>, AllocError>
    ensures count { IfOk result (λ v. length v.items ≡ count) }
    ensures empty { IfOk result (λ v. (k : ℕ) → item v.items k ≡ None) }
{
    let mut cells = Vec::new(alloc);
    cells.resize(count, None)?;
    Ok(cells)
}

/// Whether a table for so many virtual registers has a cell for the place.
pub(crate) fn has_cell(registers: u32, place: Location) -> bool
    ensures { result ≡ in_table registers place }
{
    match place {
        Location::Register(number) => number <= abi::LAST_SAVED,
        Location::Slot(slot) => slot < registers,
    }
}

/// The place holds the register's value.
fn hold(first: &mut First, registers: u32, place: Location, register: u32)
    requires inside { IsTrue (in_table registers place) }
    requires room { HasRoom registers first.old }
    ensures owners { (q : Location) → first_at first.new q ≡ (if same_location q place then Some register else first_at first.old q) }
    ensures places { (r : ℕ) → stands_at first.new r ≡ stands_at first.old r }
    ensures room { HasRoom registers first.new }
{
    match place {
        Location::Register(number) => first.machine[number as usize] = Some(register),
        Location::Slot(slot) => first.slots[slot as usize] = Some(register),
    }
}

/// Its place is that one.
fn stand(first: &mut First, registers: u32, register: u32, place: Location)
    requires inside { register < registers }
    requires room { HasRoom registers first.old }
    ensures owners { (q : Location) → first_at first.new q ≡ first_at first.old q }
    ensures places { (r : ℕ) → stands_at first.new r ≡ (if nat_eq r register then Some place else stands_at first.old r) }
    ensures room { HasRoom registers first.new }
{
    first.places[register as usize] = Some(place);
}

fn know(first: &mut First, registers: u32, equality: &Equality)
    requires exists { exists_in registers equality.now ≡ true }
    requires room { HasRoom registers first.old }
    ensures owners { first_at first.new ≡ own_also equality.now (first_at first.old) }
    ensures places { stands_at first.new ≡ stand_also equality.now (stands_at first.old) }
    ensures room { HasRoom registers first.new }
{
    hold(first, registers, equality.place, equality.register);
    stand(first, registers, equality.register, equality.place);
}

fn know_all(first: &mut First, registers: u32, everywhere: &[Equality])
    requires exist { list_all (exists_in registers) everywhere.now ≡ true }
    requires room { HasRoom registers first.old }
    ensures owners { first_at first.new ≡ known everywhere.now (first_at first.old) }
    ensures places { stands_at first.new ≡ standing everywhere.now (stands_at first.old) }
    ensures room { HasRoom registers first.new }
{
    for equality in everywhere {
        know(first, registers, equality);
    }
}

fn nothing(alloc: Global, registers: u32) -> Result<First, AllocError>
    ensures owners { IfOk result (λ f. first_at f ≡ nobody) }
    ensures places { IfOk result (λ f. stands_at f ≡ nowhere) }
    ensures room { IfOk result (λ f. HasRoom registers f) }
{
    Ok(First {
        machine: empty(alloc, MACHINE)?,
        slots: empty(alloc, registers as usize)?,
        places: empty(alloc, registers as usize)?,
    })
}

impl First {
    /// What is known where all of that holds.
    ///
    /// # Errors
    ///
    /// Only where memory was refused.
    pub(crate) fn new(
        alloc: Global,
        registers: u32,
        everywhere: &[Equality],
    ) -> Result<First, AllocError>
        requires { list_all (exists_in registers) everywhere.now ≡ true }
        ensures { IfOk result (λ f. IsFirst registers everywhere.now f) }
    {
        if everywhere.is_empty() {
            return Ok(First {
                machine: Vec::new(alloc),
                slots: Vec::new(alloc),
                places: Vec::new(alloc),
            });
        }
        let mut first = nothing(alloc, registers)?;
        know_all(&mut first, registers, everywhere);
        Ok(first)
    }

    /// The register whose value a place holds.
    pub(crate) fn owner(&self, place: Location) -> Option<u32>
        ensures { result ≡ first_at self.now place }
    {
        match place {
            Location::Register(number) => item(&self.machine, number as usize),
            Location::Slot(slot) => item(&self.slots, slot as usize),
        }
    }

    /// The place of a register.
    pub(crate) fn place(&self, register: u32) -> Option<Location>
        ensures { result ≡ stands_at self.now register }
    {
        item(&self.places, register as usize)
    }
}
