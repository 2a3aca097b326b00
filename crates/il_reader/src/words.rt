//! The words of classes, sizes and operations (QBE IL reference, "Types" and "Instructions").
ghost use Rattle.std.specs.Prelude.{◌≡◌, ◌++◌, codes};
ghost use Rattle.il_reader.specs.Prelude.{class_of, size_of, unary_of, binary_of, alloc_of, store_of, is_text, operation_of, is_jump};

use crate::statement::Operation;
use il_ast::{Alignment, BinaryOp, Class, Condition, Extension, Size, UnaryOp};

/// Whether a text is a word.
pub(crate) fn is_text(word: &[u8], text: &[u8]) -> bool
    ensures { result ≡ is_text word.now text.now }
{
    text.iter().eq(word)
}

/// The class that a word names.
pub(crate) fn class_of(text: &[u8]) -> Option<Class>
    ensures { result ≡ class_of text.now }
{
    match text {
        b"w" => Some(Class::W),
        b"l" => Some(Class::L),
        _ => None,
    }
}

/// The size that a word names.
pub(crate) fn size_of(text: &[u8]) -> Option<Size>
    ensures { result ≡ size_of text.now }
{
    match text {
        b"b" => Some(Size::Byte),
        b"h" => Some(Size::Half),
        b"w" => Some(Size::Word),
        b"l" => Some(Size::Long),
        _ => None,
    }
}

/// The size of the store that a word names.
pub(crate) fn store_of(text: &[u8]) -> Option<Size>
    ensures { result ≡ store_of text.now }
{
    match text {
        [b's', b't', b'o', b'r', b'e', size @ ..] => size_of(size),
        _ => None,
    }
}

/// The alignment that a word behind `alloc` names.
fn alignment_of(text: &[u8]) -> Option<Alignment>
    ensures { result ≡ alloc_of (codes "alloc" ++ text.now) }
{
    match text {
        b"4" => Some(Alignment::Four),
        b"8" => Some(Alignment::Eight),
        b"16" => Some(Alignment::Sixteen),
        _ => None,
    }
}

/// The alignment of the `alloc` that a word names.
pub(crate) fn alloc_of(text: &[u8]) -> Option<Alignment>
    ensures { result ≡ alloc_of text.now }
{
    match text {
        [b'a', b'l', b'l', b'o', b'c', alignment @ ..] => alignment_of(alignment),
        _ => None,
    }
}

/// The load that a word behind `load` names.
fn load_of(text: &[u8]) -> Option<UnaryOp>
    ensures { result ≡ unary_of (codes "load" ++ text.now) }
{
    match text {
        b"w" | b"sw" => Some(UnaryOp::Load(Extension::SignedWord)),
        b"uw" => Some(UnaryOp::Load(Extension::UnsignedWord)),
        b"sh" => Some(UnaryOp::Load(Extension::SignedHalf)),
        b"uh" => Some(UnaryOp::Load(Extension::UnsignedHalf)),
        b"sb" => Some(UnaryOp::Load(Extension::SignedByte)),
        b"ub" => Some(UnaryOp::Load(Extension::UnsignedByte)),
        b"l" => Some(UnaryOp::LoadLong),
        _ => None,
    }
}

/// The operation with one operand that a word names.
pub(crate) fn unary_of(text: &[u8]) -> Option<UnaryOp>
    ensures { result ≡ unary_of text.now }
{
    match text {
        [b'l', b'o', b'a', b'd', load @ ..] => load_of(load),
        b"neg" => Some(UnaryOp::Neg),
        b"copy" => Some(UnaryOp::Copy),
        b"extsw" => Some(UnaryOp::Extend(Extension::SignedWord)),
        b"extuw" => Some(UnaryOp::Extend(Extension::UnsignedWord)),
        b"extsh" => Some(UnaryOp::Extend(Extension::SignedHalf)),
        b"extuh" => Some(UnaryOp::Extend(Extension::UnsignedHalf)),
        b"extsb" => Some(UnaryOp::Extend(Extension::SignedByte)),
        b"extub" => Some(UnaryOp::Extend(Extension::UnsignedByte)),
        _ => None,
    }
}

/// The comparison that a word behind `c` names.
fn comparison_of(text: &[u8]) -> Option<BinaryOp>
    ensures { result ≡ binary_of (codes "c" ++ text.now) }
{
    match text {
        b"eqw" => Some(BinaryOp::Compare(Condition::Equal, Class::W)),
        b"new" => Some(BinaryOp::Compare(Condition::NotEqual, Class::W)),
        b"slew" => Some(BinaryOp::Compare(Condition::SignedLessEqual, Class::W)),
        b"sltw" => Some(BinaryOp::Compare(Condition::SignedLess, Class::W)),
        b"sgew" => Some(BinaryOp::Compare(Condition::SignedGreaterEqual, Class::W)),
        b"sgtw" => Some(BinaryOp::Compare(Condition::SignedGreater, Class::W)),
        b"ulew" => Some(BinaryOp::Compare(Condition::UnsignedLessEqual, Class::W)),
        b"ultw" => Some(BinaryOp::Compare(Condition::UnsignedLess, Class::W)),
        b"ugew" => Some(BinaryOp::Compare(Condition::UnsignedGreaterEqual, Class::W)),
        b"ugtw" => Some(BinaryOp::Compare(Condition::UnsignedGreater, Class::W)),
        b"eql" => Some(BinaryOp::Compare(Condition::Equal, Class::L)),
        b"nel" => Some(BinaryOp::Compare(Condition::NotEqual, Class::L)),
        b"slel" => Some(BinaryOp::Compare(Condition::SignedLessEqual, Class::L)),
        b"sltl" => Some(BinaryOp::Compare(Condition::SignedLess, Class::L)),
        b"sgel" => Some(BinaryOp::Compare(Condition::SignedGreaterEqual, Class::L)),
        b"sgtl" => Some(BinaryOp::Compare(Condition::SignedGreater, Class::L)),
        b"ulel" => Some(BinaryOp::Compare(Condition::UnsignedLessEqual, Class::L)),
        b"ultl" => Some(BinaryOp::Compare(Condition::UnsignedLess, Class::L)),
        b"ugel" => Some(BinaryOp::Compare(Condition::UnsignedGreaterEqual, Class::L)),
        b"ugtl" => Some(BinaryOp::Compare(Condition::UnsignedGreater, Class::L)),
        _ => None,
    }
}

/// The operation with two operands that a word names.
pub(crate) fn binary_of(text: &[u8]) -> Option<BinaryOp>
    ensures { result ≡ binary_of text.now }
{
    match text {
        [b'c', comparison @ ..] => comparison_of(comparison),
        b"add" => Some(BinaryOp::Add),
        b"sub" => Some(BinaryOp::Sub),
        b"mul" => Some(BinaryOp::Mul),
        b"and" => Some(BinaryOp::And),
        b"or" => Some(BinaryOp::Or),
        b"xor" => Some(BinaryOp::Xor),
        b"div" => Some(BinaryOp::Div),
        b"rem" => Some(BinaryOp::Rem),
        b"udiv" => Some(BinaryOp::Udiv),
        b"urem" => Some(BinaryOp::Urem),
        b"sar" => Some(BinaryOp::Sar),
        b"shr" => Some(BinaryOp::Shr),
        b"shl" => Some(BinaryOp::Shl),
        _ => None,
    }
}

/// What the word behind a destination asks for.
pub(crate) fn operation_of(text: &[u8]) -> Option<Operation>
    ensures { result ≡ operation_of text.now }
{
    if is_text(b"phi", text) {
        return Some(Operation::Phi);
    }
    if is_text(b"call", text) {
        return Some(Operation::Call);
    }
    if let Some(alignment) = alloc_of(text) {
        return Some(Operation::Alloc(alignment));
    }
    if let Some(op) = unary_of(text) {
        return Some(Operation::Unary(op));
    }
    match binary_of(text) {
        Some(op) => Some(Operation::Binary(op)),
        None => None,
    }
}

/// Whether a jump begins with the word.
pub(crate) fn is_jump(text: &[u8]) -> bool
    ensures { result ≡ is_jump text.now }
{
    matches!(text, b"jmp" | b"jnz" | b"ret" | b"hlt")
}
