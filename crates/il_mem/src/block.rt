//! One block: its cells, in little room.
ghost use Rattle.std.specs.Prelude.{◌≡◌, ◌+◌, ◌<◌, ◌≤◌, List, [], ◌∷◌, ◌++◌, length, map, replicate, take, drop, slice_get, slice_set, vec_capacity, MatchBool, Some, IfOk, IfSome, IsTrue, ◌↔◌, OnOk, option_and_then, option_map};
ghost use Rattle.il_ast.specs.declared.value.Cell.TheVariants.{Blank, Plain};
ghost use Rattle.il_ast.specs.declared.value.Value.{Value as ValueOf};
ghost use Rattle.il_ast.specs.Prelude.{byte_count, bytes_of, number_of, plain_bytes};
ghost use Rattle.il_mem.specs.Cells.{plain_byte};
ghost use Rattle.il_mem.specs.Joined.{cell_of, joined, overlaid, ShowsSame};
ghost use Rattle.il_mem.specs.Written.{written};

use crate::words::{bytes_in, little, overwrite};
use il_ast::{Cell, Size, Value};
use std::alloc::{AllocError, Global};
use std::marker::Model;

/// A cell without the value that it is a part of.
#[derive(Clone, Copy)]
enum Mark {
    Blank,
    Plain(u8),
    /// this part of the value that stands at the cell's place in `values`
    Part(u8),
}

/// The cells of a block.
///
/// As long as a block is written from its front, and no part of a pointer or function is written over
/// those bytes, they stand in a list of bytes, from which numbers are read and written at once. The other
/// cells are marks of two bytes. Values of pointers and functions stand beside those in a list of their own.
/// Room in both lists is reserved when the block is made: a block of plain bytes never touches the values.
#[derive(Drop)]
pub struct Block {
    /// the first cells, which are bytes
    bytes: Vec<u8>,
    /// whether that list grows no more
    is_closed: bool,
    /// all cells, but that those of the first ones are stale
    marks: Vec<Mark>,
    values: Vec<Value>,
}

impl Model for Block {
    ghost use Rattle.std.specs.Prelude.{List, length, ◌≤◌, vec_capacity};
    ghost use Rattle.il_ast.specs.declared.value.Cell.{Cell};

    ghost Value = { List Cell };

    ghost use Rattle.il_mem.specs.Joined.{joined, overlaid};

    ghost view = { λ b. overlaid b.bytes.items (joined b.marks.items b.values.items) };

    ghost invariant = { λ b. (length b.bytes.items ≤ length b.marks.items) × (length b.marks.items ≤ vec_capacity b.bytes) × (length b.marks.items ≤ vec_capacity b.values) };
}

/// What stands in the list of values where no cell is a part.
const NO_VALUE: Value = Value::Integer(0);

impl Block {
    /// A block of so many blank cells.
    pub fn blank(alloc: Global, size: usize) -> Result<Self, AllocError>
        ensures { IfOk result (λ block. block ≡ replicate size Blank) }
    {
        let bytes = Vec::with_capacity(alloc, size)?;
        let marks = vec![in alloc; Mark::Blank; size]?;
        let values = Vec::with_capacity(alloc, size)?;
        Ok(Block {
            bytes,
            is_closed: false,
            marks,
            values,
        })
    }

    /// The block of no cells, which takes no memory.
    pub fn empty(alloc: Global) -> Self
        ensures { result ≡ [] }
    {
        Block {
            bytes: Vec::new(alloc),
            is_closed: false,
            marks: Vec::new(alloc),
            values: Vec::new(alloc),
        }
    }

    /// Puts a cell at the end.
    pub fn push(&mut self, cell: Cell) -> Result<(), AllocError>
        ensures { OnOk result (self.new ≡ self.old ++ cell ∷ []) }
    {
        let at = self.len();
        self.push_blank()?;
        self.set(at, cell);
        Ok(())
    }

    fn push_blank(&mut self) -> Result<(), AllocError>
        ensures { OnOk result (self.new ≡ self.old ++ Blank ∷ []) }
    {
        let most = self.marks.len() + 1;
        self.bytes.reserve(most.saturating_sub(self.bytes.len()))?;
        self.values.reserve(most.saturating_sub(self.values.len()))?;
        self.marks.push(Mark::Blank)?;
        Ok(())
    }

    /// The number of cells.
    pub fn len(&self) -> usize
        ensures { result ≡ length self.now }
    {
        self.marks.len()
    }

    /// The cell at a place.
    pub fn get(&self, at: usize) -> Cell
        requires { at < length self.now }
        ensures { slice_get self.now at ≡ Some result }
    {
        if at < self.bytes.len() {
            Cell::Plain(self.bytes[at])
        } else {
            cell_at(self.marks.as_slice(), self.values.as_slice(), at)
        }
    }

    /// The byte at a place, where the cell there is one.
    pub fn byte(&self, at: usize) -> Option<u8>
        requires { at < length self.now }
        ensures byte { result ≡ option_and_then plain_byte (slice_get self.now at) }
        ensures small { IfSome result (λ byte. byte < 256) }
    {
        if at < self.bytes.len() {
            Some(self.bytes[at])
        } else {
            byte_in(self.marks[at])
        }
    }

    /// The number of so many cells from a place on, lowest first, where they stand in the list of bytes.
    pub fn number(&self, from: usize, size: Size) -> Option<u64>
        ensures inside { IfSome result (λ _. from + byte_count size ≤ length self.now) }
        ensures value { IfSome result (λ number. option_map number_of (plain_bytes (take (byte_count size) (drop from self.now))) ≡ Some number) }
    {
        if is_within(from, size, self.bytes.len()) {
            Some(little(&self.bytes.as_slice()[from..], size))
        } else {
            None
        }
    }

    /// Writes the low bytes of a number from a place on, lowest first, where the cells there stand in the list
    /// of bytes. Answers whether it did.
    pub fn set_number(&mut self, to: usize, size: Size, number: u64) -> bool
        ensures { MatchBool result ((to + byte_count size ≤ length self.old) × (self.new ≡ written to (map Plain (bytes_of (byte_count size) number)) self.old)) (self.new ≡ self.old) }
    {
        if is_within(to, size, self.bytes.len()) {
            overwrite(&mut self.bytes, to, size, number);
            true
        } else {
            false
        }
    }

    /// Puts a byte at a place. It takes no memory.
    pub fn set_byte(&mut self, at: usize, byte: u8)
        requires { at < length self.old }
        ensures { self.new ≡ slice_set self.old at (Plain byte) }
    {
        if at < self.bytes.len() {
            self.bytes[at] = byte;
        } else if at == self.bytes.len() && !self.is_closed {
            let _ = self.bytes.push(byte);
        } else {
            self.marks[at] = Mark::Plain(byte);
        }
    }

    /// Puts a cell at a place. It takes no memory.
    pub fn set(&mut self, at: usize, cell: Cell)
        requires { at < length self.old }
        ensures { self.new ≡ slice_set self.old at cell }
    {
        match cell {
            Cell::Plain(byte) => self.set_byte(at, byte),
            Cell::Blank | Cell::Part { .. } => {
                self.is_closed = self.is_closed || at < self.bytes.len();
                cut(&mut self.bytes, &mut self.marks, at);
                set_cell(&mut self.marks, &mut self.values, at, cell);
            }
        }
    }
}

/// The byte that a mark is, where it is one.
fn byte_in(mark: Mark) -> Option<u8>
    ensures byte { (value : ValueOf) → result ≡ plain_byte (cell_of mark value) }
    ensures small { IfSome result (λ byte. byte < 256) }
{
    match mark {
        Mark::Plain(byte) => Some(byte),
        Mark::Blank | Mark::Part(_) => None,
    }
}

/// The cell that a mark is, with the values beside.
fn cell_at(marks: &[Mark], values: &[Value], at: usize) -> Cell
    requires { at < length marks.now }
    ensures { slice_get (joined marks.now values.now) at ≡ Some result }
{
    match marks[at] {
        Mark::Blank => Cell::Blank,
        Mark::Plain(byte) => Cell::Plain(byte),
        Mark::Part(index) => Cell::Part {
            value: values.get(at).copied().unwrap_or(NO_VALUE),
            index,
        },
    }
}

/// Puts a cell at a place of the marks, and its value beside it, in the room that these have.
fn set_cell(marks: &mut Vec<Mark>, values: &mut Vec<Value>, at: usize, cell: Cell)
    requires inside { at < length marks.old.items }
    requires room { length marks.old.items ≤ vec_capacity values.old }
    ensures cells { joined marks.new.items values.new.items ≡ slice_set (joined marks.old.items values.old.items) at cell }
    ensures length { length marks.new.items ≡ length marks.old.items }
    ensures capacity { vec_capacity values.old ≤ vec_capacity values.new }
{
    match cell {
        Cell::Blank => marks[at] = Mark::Blank,
        Cell::Plain(byte) => marks[at] = Mark::Plain(byte),
        Cell::Part { value, index } => {
            grow(values, at);
            values[at] = value;
            marks[at] = Mark::Part(index);
        }
    }
}

/// Shortens the list of bytes to a length; what stood behind it becomes marks.
fn cut(bytes: &mut Vec<u8>, marks: &mut Vec<Mark>, most: usize)
    requires { length bytes.old.items ≤ length marks.old.items }
    ensures cells { (values : List ValueOf) → overlaid bytes.new.items (joined marks.new.items values) ≡ overlaid bytes.old.items (joined marks.old.items values) }
    ensures bytes { length bytes.new.items ≤ most }
    ensures marks { length marks.new.items ≡ length marks.old.items }
    ensures capacity { vec_capacity bytes.new ≡ vec_capacity bytes.old }
{
    while bytes.len() > most {
        if let Some(byte) = bytes.pop() {
            let at = bytes.len();
            marks[at] = Mark::Plain(byte);
        }
    }
}

/// Makes the list of values long enough to have a place, in the room that it has.
fn grow(values: &mut Vec<Value>, at: usize)
    requires { at < vec_capacity values.old }
    ensures same { ShowsSame values.old.items values.new.items }
    ensures long { at < length values.new.items }
    ensures capacity { vec_capacity values.old ≤ vec_capacity values.new }
{
    while values.len() <= at {
        let _ = values.push(NO_VALUE);
    }
}

/// Whether so many bytes from a place on are among the first ones.
fn is_within(from: usize, size: Size, count: usize) -> bool
    ensures { IsTrue result ↔ (from + byte_count size ≤ count) }
{
    let bytes = bytes_in(size);
    bytes <= count && from <= count - bytes
}
