//! The memory: its blocks by number.
ghost use Rattle.std.specs.Prelude.{◌≡◌, ◌+◌, ◌^◌, ◌<◌, ◌≤◌, [], ◌∷◌, ◌++◌, length, Some, None, IfOk, OnOk, OnErr, IfSome, OnSome, IfNone, MatchBool, MatchOption, option_and_then};
ghost use Rattle.il_ast.specs.Prelude.{byte_count, block_at, size_at, load, store, copy, fresh, free, cells_at, write_at, cells_for, value_of, plain_bytes};
ghost use Rattle.il_ast.specs.declared.value.Value.TheVariants.{Integer, Pointer};
ghost use Rattle.il_mem.specs.Changed.{place_in, copied_place, Gives};

use crate::block::Block;
use crate::change::{shift_block, store_block};
use crate::numbers::place_of;
use crate::ranges::{block_bytes, load_block, number_in};
use crate::transfer::transfer;
use crate::words::bytes_in;
use il_ast::{Size, Value};
use std::alloc::{AllocError, Global};
use std::marker::Model;

/// The number of a block, which is never used again.
pub type BlockId = u128;

/// The blocks made so far; dead ones take no room.
#[derive(Drop)]
pub struct BlockMemory {
    /// the numbers of the live blocks, which rise
    numbers: Vec<u128>,
    /// the live blocks, in the order of their numbers
    live: Vec<Block>,
    made: u128,
    alloc: Global,
}

impl Model for BlockMemory {
    ghost use Rattle.std.specs.Prelude.{List, Option};
    ghost use Rattle.il_ast.specs.declared.value.Cell.{Cell};

    ghost Value = { List (Option (List Cell)) };

    ghost use Rattle.il_mem.specs.Changed.{blocks};
    ghost use Rattle.il_mem.specs.Changed.{found, Numbered};

    ghost view = { λ m. blocks (found m.numbers.items m.live.items) 0 m.made };

    ghost invariant = { λ m. Numbered m.numbers.items m.live.items m.made };
}

impl BlockMemory {
    /// The memory with no block. It takes no memory.
    pub fn new(alloc: Global) -> Self
        ensures { result ≡ [] }
    {
        BlockMemory {
            numbers: Vec::new(alloc),
            live: Vec::new(alloc),
            made: 0,
            alloc,
        }
    }

    /// How many blocks were made.
    pub fn made(&self) -> u128
        ensures { result ≡ length self.now }
    {
        self.made
    }

    /// Makes a block of so many blank cells. Where memory is refused nothing changes.
    pub fn fresh(&mut self, size: usize) -> Result<BlockId, AllocError>
        requires { length self.old + 1 < 2 ^ 128 }
        ensures number { IfOk result (λ id. id ≡ length self.old) }
        ensures ok { OnOk result (self.new ≡ fresh self.old size) }
        ensures err { OnErr result (self.new ≡ self.old) }
    {
        let block = Block::blank(self.alloc, size)?;
        self.add(block)
    }

    /// Takes a block that was made by its cells. Where memory is refused nothing changes.
    pub fn add(&mut self, block: Block) -> Result<BlockId, AllocError>
        requires { length self.old + 1 < 2 ^ 128 }
        ensures number { IfOk result (λ id. id ≡ length self.old) }
        ensures ok { OnOk result (self.new ≡ self.old ++ Some block ∷ []) }
        ensures err { OnErr result (self.new ≡ self.old) }
    {
        let id = self.made;
        self.numbers.reserve(1)?;
        self.live.push(block)?;
        let _ = self.numbers.push(id);
        self.made = id + 1;
        Ok(id)
    }

    /// Makes a block dead; nothing changes where it is dead already. It takes a step for each live
    /// block that was made after this one.
    pub fn free(&mut self, block: BlockId)
        ensures freed { self.new ≡ free self.old block }
        ensures made { length self.new ≡ length self.old }
    {
        if let Some(at) = place_of(self.numbers.as_slice(), block) {
            let _ = self.numbers.remove(at);
            let _ = self.live.remove(at);
        }
    }

    /// The size of a live block, in bytes.
    pub fn size(&self, block: BlockId) -> Option<usize>
        ensures { result ≡ size_at self.now block }
    {
        match self.block(block) {
            Some(found) => Some(found.len()),
            None => None,
        }
    }

    /// The live block of a number.
    fn block(&self, number: u128) -> Option<&Block>
        ensures { MatchOption result (block_at self.now number ≡ None) (λ found. block_at self.now number ≡ Some found.now) }
    {
        match place_of(self.numbers.as_slice(), number) {
            Some(at) => Some(&self.live[at]),
            None => None,
        }
    }

    /// The value of so many cells where a pointer points to. None where it is no pointer, the span
    /// isn't wholly inside a live block, or the cells have no value.
    pub fn load(&self, at: Value, size: Size) -> Option<Value>
        ensures { result ≡ load self.now (byte_count size) at }
    {
        match pointed(at) {
            Some(place) => self.load_place(place, bytes_in(size)),
            None => None,
        }
    }

    /// The bytes of so many cells from an offset of a block. None where the span isn't wholly inside a
    /// live block, or a cell isn't a byte.
    pub fn bytes(
        &self,
        block: BlockId,
        offset: u64,
        count: u64,
    ) -> Result<Option<Vec<u8>>, AllocError>
        ensures { IfOk result (λ found. MatchOption found (option_and_then plain_bytes (cells_at self.now block offset count) ≡ None) (λ bytes. option_and_then plain_bytes (cells_at self.now block offset count) ≡ Some bytes.items)) }
    {
        match self.block(block) {
            Some(found) => block_bytes(self.alloc, found, offset as usize, count as usize),
            None => Ok(None),
        }
    }

    fn load_place(&self, place: Place, count: usize) -> Option<Value>
        requires some { 0 < count }
        requires few { count ≤ 8 }
        ensures { result ≡ option_and_then value_of (cells_at self.now place.block place.offset count) }
    {
        match self.block(place.block) {
            Some(found) => load_block(found, place.offset, count),
            None => None,
        }
    }

    /// The number of so many bytes from an offset of a block. None says nothing of what stands there: `load` tells.
    pub fn load_number(&self, block: BlockId, offset: u64, size: Size) -> Option<u64>
        ensures { IfSome result (λ number. load self.now (byte_count size) (Pointer block offset) ≡ Some (Integer number)) }
    {
        match self.block(block) {
            Some(found) => number_in(found, offset, size),
            None => None,
        }
    }

    /// Stores the low bytes of an integer, or the eight parts of another value. None, and nothing
    /// changes, where the place is no pointer, the span isn't wholly inside a live block, or a pointer
    /// or function is stored at less than eight bytes.
    pub fn store(&mut self, at: Value, value: Value, size: Size) -> Option<()>
        ensures some { OnSome result (store self.old (byte_count size) at value ≡ Some self.new) }
        ensures none { IfNone result (store self.old (byte_count size) at value ≡ None) }
        ensures unchanged { IfNone result (self.new ≡ self.old) }
        ensures made { length self.new ≡ length self.old }
    {
        match pointed(at) {
            Some(place) => {
                if self.store_place(place, size, value) {
                    Some(())
                } else {
                    None
                }
            }
            None => None,
        }
    }

    fn store_place(&mut self, place: Place, size: Size, value: Value) -> bool
        ensures gives { Gives (option_and_then (write_at self.old place.block place.offset) (cells_for (byte_count size) value)) self.old self.new result }
        ensures made { length self.new ≡ length self.old }
    {
        match place_of(self.numbers.as_slice(), place.block) {
            Some(at) => store_block(&mut self.live[at], place.offset, size, value),
            None => false,
        }
    }

    /// Stores the low bytes of an integer at an offset of a block, as `store` does. Answers whether the
    /// span lies wholly inside a live block; else nothing changes.
    pub fn store_number(&mut self, block: BlockId, offset: u64, size: Size, number: u64) -> bool
        ensures { MatchBool result (store self.old (byte_count size) (Pointer block offset) (Integer number) ≡ Some self.new) (self.new ≡ self.old) }
    {
        let place = Place { block, offset };
        self.store_place(place, size, Value::Integer(number))
    }

    /// Copies so many cells as they are: bytes, parts and blank ones. None, and nothing changes, where
    /// the count isn't 0 and the two aren't pointers whose spans lie wholly inside live blocks and are
    /// the same or have no cell in common. It takes no memory.
    pub fn copy(&mut self, from: Value, to: Value, count: u64) -> Option<()>
        ensures some { OnSome result (copy self.old count from to ≡ Some self.new) }
        ensures none { IfNone result (copy self.old count from to ≡ None) }
        ensures unchanged { IfNone result (self.new ≡ self.old) }
        ensures made { length self.new ≡ length self.old }
    {
        if count == 0 {
            return Some(());
        }
        match pointed(from) {
            Some(source) => match pointed(to) {
                Some(target) => {
                    if self.copy_place(source, target, count as usize) {
                        Some(())
                    } else {
                        None
                    }
                }
                None => None,
            },
            None => None,
        }
    }

    fn copy_place(&mut self, source: Place, target: Place, count: usize) -> bool
        ensures gives { Gives (copied_place self.old count source.block source.offset target.block target.offset) self.old self.new result }
        ensures made { length self.new ≡ length self.old }
    {
        let from = match place_of(self.numbers.as_slice(), source.block) {
            Some(from) => from,
            None => return false,
        };
        let to = match place_of(self.numbers.as_slice(), target.block) {
            Some(to) => to,
            None => return false,
        };
        if from == to {
            return shift_block(&mut self.live[to], target.offset, source.offset, count);
        }
        transfer(
            &mut self.live,
            self.alloc,
            from,
            source.offset,
            to,
            target.offset,
            count,
        )
    }
}

/// A block and an offset in it.
#[derive(Clone, Copy)]
struct Place {
    block: u128,
    offset: u64,
}

/// Where a pointer points to.
fn pointed(at: Value) -> Option<Place>
    ensures { result ≡ place_in at }
{
    match at {
        Value::Pointer { block, offset } => Some(Place { block, offset }),
        Value::Integer(_) | Value::Function(_) => None,
    }
}
