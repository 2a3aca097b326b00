//! Data definitions (QBE IL, "Data").
use crate::list::Seq;
use crate::operation::Size;
use crate::symbol::Symbol;

/// One item of a field.
#[derive(Drop)]
pub enum Item {
    /// a number modulo 2^64, of which the field's size takes the low bytes
    Int(u64),
    /// the bytes of a string
    Bytes(Seq<u8>),
    /// the address of a name, with an offset in bytes
    Address { symbol: Symbol, offset: u64 },
}

/// A field.
#[derive(Drop)]
pub enum Field {
    /// `b`, `h`, `w` or `l`, and its items
    Items { size: Size, items: Seq<Item> },
    /// `z`: that many zero bytes
    Zeros(u64),
}

/// A data definition.
#[derive(Drop)]
pub struct DataDef {
    /// the line of the name
    pub line: usize,
    pub exported: bool,
    pub name: Symbol,
    /// 8 where the text names none
    pub alignment: u64,
    pub fields: Seq<Field>,
}
