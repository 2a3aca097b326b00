//! The values of an activation's temporaries.
ghost use Rattle.std.specs.Prelude.{◌≡◌, ◌+◌, ◌*◌, ◌^◌, length, replicate, slice_get, slice_set, Some, None, IfOk, IfSome, MatchBool};
ghost use Rattle.std.specs.Option.{option_flatten};
ghost use Rattle.il_ast.specs.declared.value.Value.TheVariants.{Integer as IntegerValue, Pointer as PointerValue};
ghost use Rattle.il_interp.specs.Slots.{value_in, Moves};

use il_ast::{Callee, Value};
use std::alloc::{AllocError, Global};
use std::marker::Model;

/// What a temporary holds, in little room: the number of a pointer's block stands in two halves.
#[derive(Clone, Copy)]
enum Slot {
    Unassigned,
    Integer(u64),
    Pointer { high: u64, low: u64, offset: u64 },
    Function(Callee),
}

fn slot_of(value: Value) -> Slot
    ensures { value_in result ≡ Some value }
{
    match value {
        Value::Integer(number) => Slot::Integer(number),
        Value::Pointer { block, offset } => Slot::Pointer {
            high: (block / 0x1_0000_0000_0000_0000) as u64,
            low: (block % 0x1_0000_0000_0000_0000) as u64,
            offset,
        },
        Value::Function(callee) => Slot::Function(callee),
    }
}

/// The number of a block by its two halves.
fn joined(high: u64, low: u64) -> u128
    ensures { result ≡ high * 2 ^ 64 + low }
{
    u128::from(high) * 0x1_0000_0000_0000_0000 + u128::from(low)
}

fn value_in(slot: Slot) -> Option<Value>
    ensures { result ≡ value_in slot }
{
    match slot {
        Slot::Unassigned => None,
        Slot::Integer(number) => Some(Value::Integer(number)),
        Slot::Pointer { high, low, offset } => Some(Value::Pointer {
            block: joined(high, low),
            offset,
        }),
        Slot::Function(callee) => Some(Value::Function(callee)),
    }
}

/// A value for each temporary, or none for one that is not assigned yet.
#[derive(Drop)]
pub struct Slots {
    slots: Vec<Slot>,
}

impl Model for Slots {
    ghost use Rattle.std.specs.Prelude.{List, Option, map};
    ghost use Rattle.il_ast.specs.declared.value.Value.{Value as ValueOf};
    ghost use Rattle.il_interp.specs.Slots.{value_in};

    ghost Value = { List (Option ValueOf) };

    ghost view = { λ s. map value_in s.slots.items };
}

impl Slots {
    /// So many temporaries, of which none is assigned.
    #[tactic(auto, using(crate::proofs::SlotLemmas::unassigned))]
    pub fn unassigned(alloc: Global, count: usize) -> Result<Self, AllocError>
        ensures { IfOk result (λ slots. slots ≡ replicate count None) }
    {
        let slots = vec![in alloc; Slot::Unassigned; count]?;
        Ok(Slots { slots })
    }

    /// The value of a temporary.
    #[tactic(auto, using(crate::proofs::ListLemmas::mapped))]
    pub fn get(&self, at: usize) -> Option<Value>
        ensures { result ≡ option_flatten (slice_get self.now at) }
    {
        value_in(*self.slots.get(at)?)
    }

    /// The number that a temporary holds, if that is an integer.
    #[tactic(auto, using(crate::proofs::ListLemmas::mapped))]
    pub fn number(&self, at: usize) -> Option<u64>
        ensures { IfSome result (λ number. option_flatten (slice_get self.now at) ≡ Some (IntegerValue number)) }
    {
        match self.slots.get(at) {
            Some(Slot::Integer(number)) => Some(*number),
            _ => None,
        }
    }

    /// The block and the offset that a temporary points to, if it holds a pointer.
    #[tactic(auto, using(crate::proofs::ListLemmas::mapped))]
    pub fn pointer(&self, at: usize) -> Option<(u128, u64)>
        ensures { IfSome result (λ place. option_flatten (slice_get self.now at) ≡ Some (PointerValue place.0 place.1)) }
    {
        match self.slots.get(at) {
            Some(Slot::Pointer { high, low, offset }) => Some((joined(*high, *low), *offset)),
            _ => None,
        }
    }

    /// Assigns a temporary; nothing changes where there is none of this number.
    pub fn set(&mut self, at: usize, value: Value)
        ensures { self.new ≡ slice_set self.old at (Some value) }
    {
        self.put(at, slot_of(value));
    }

    /// Assigns an integer to a temporary; nothing changes where there is none of this number.
    pub fn set_number(&mut self, at: usize, number: u64)
        ensures { self.new ≡ slice_set self.old at (Some (IntegerValue number)) }
    {
        self.put(at, Slot::Integer(number));
    }

    /// Assigns a temporary the pointer of another one, moved on by so many bytes, if that one holds a
    /// pointer. Answers whether it did.
    pub fn set_moved(&mut self, to: usize, from: usize, by: u64) -> bool
        ensures { MatchBool result (Moves self.old from by to self.new) (self.new ≡ self.old) }
    {
        match self.slots.get(from).copied() {
            Some(Slot::Pointer { high, low, offset }) => {
                let offset = offset.wrapping_add(by);
                self.put(to, Slot::Pointer { high, low, offset });
                true
            }
            _ => false,
        }
    }

    #[tactic(auto, using(crate::proofs::SlotLemmas::put, crate::proofs::SlotLemmas::behind))]
    fn put(&mut self, at: usize, slot: Slot)
        ensures { self.new ≡ slice_set self.old at (value_in slot) }
    {
        if at < self.slots.len() {
            self.slots[at] = slot;
        }
    }
}
