//! The classes of values, and the operations (QBE IL, "Types" and "Instructions").

/// The class of a temporary: `w`, a word of 32 bits, or `l`, a long of 64 bits.
#[derive(Clone, Copy, Debug, PartialEq, Eq)]
pub enum Class {
    W,
    L,
}

/// How many bytes a store, or an item of data, takes: 1, 2, 4 or 8 (`b`, `h`, `w`, `l`).
#[derive(Clone, Copy, Debug, PartialEq, Eq)]
pub enum Size {
    Byte,
    Half,
    Word,
    Long,
}

/// How a narrow number becomes a wider one: from 32, 16 or 8 bits, by its sign or by zeros.
#[derive(Clone, Copy, Debug, PartialEq, Eq)]
pub enum Extension {
    SignedWord,
    UnsignedWord,
    SignedHalf,
    UnsignedHalf,
    SignedByte,
    UnsignedByte,
}

/// An operation with one operand.
#[derive(Clone, Copy, Debug)]
pub enum UnaryOp {
    /// `neg`
    Neg,
    /// `copy`
    Copy,
    /// `extsw`, `extuw`, `extsh`, `extuh`, `extsb`, `extub`
    Extend(Extension),
    /// `loadl`
    LoadLong,
    /// `loadsw` (and `loadw`), `loaduw`, `loadsh`, `loaduh`, `loadsb`, `loadub`
    Load(Extension),
}

/// A comparison: equality, or an order by signed or unsigned numbers.
#[derive(Clone, Copy, Debug, PartialEq, Eq)]
pub enum Condition {
    Equal,
    NotEqual,
    SignedLessEqual,
    SignedLess,
    SignedGreaterEqual,
    SignedGreater,
    UnsignedLessEqual,
    UnsignedLess,
    UnsignedGreaterEqual,
    UnsignedGreater,
}

/// An operation with two operands.
#[derive(Clone, Copy, Debug)]
pub enum BinaryOp {
    Add,
    Sub,
    Mul,
    And,
    Or,
    Xor,
    /// `div`, signed
    Div,
    /// `rem`, signed
    Rem,
    Udiv,
    Urem,
    /// shift to the right that copies the sign
    Sar,
    /// shift to the right that brings zeros
    Shr,
    Shl,
    /// `ceqw`, `csltl` and the other eighteen: a condition on two operands of the class
    Compare(Condition, Class),
}

/// The alignment that an `alloc` asks for; no program can see it.
#[derive(Clone, Copy, Debug)]
pub enum Alignment {
    Four,
    Eight,
    Sixteen,
}
