//! The operations of the language.
ghost use Rattle.std.specs.Prelude.{◌≡◌, ◌<◌, ◌^◌};
ghost use Rattle.il_ast.specs.declared.operation.Class.TheVariants.{W};
ghost use Rattle.il_ast.specs.Prelude.{byte_count, operand_class, left_class, right_class, on_integers, extension_bytes, extended, widened, operate_one, operate_two};
ghost use Rattle.il_interp.specs.Negated.{negated};
ghost use Rattle.il_interp.specs.Operands.{FitsPlace};

use crate::integers::{on_longs, on_words, to_long, to_word};
use crate::places::on_places;
use il_ast::condition::{longs_hold, words_hold};
use il_ast::{BinaryOp, Class, Extension, Size, UnaryOp, Value};
use il_mem::memory::BlockMemory;

/// The operation on two values, each of the class of its place; none where it is undefined.
#[tactic(auto, unfolding(il_ast::specs::Operations::operate_two))]
pub fn operate_two(
    memory: &BlockMemory,
    op: BinaryOp,
    class: Class,
    left: Value,
    right: Value,
) -> Option<Value>
    requires left { FitsPlace (left_class op class) left }
    requires right { FitsPlace (right_class op class) right }
    ensures { result ≡ operate_two memory.now op class left right }
{
    match (left, right) {
        (Value::Integer(a), Value::Integer(b)) => {
            Some(Value::Integer(on_integers(op, class, a, b)?))
        }
        _ => on_places(memory, op, left, right),
    }
}

/// The operation on two integers, each of the class of its place.
fn on_integers(op: BinaryOp, class: Class, a: u64, b: u64) -> Option<u64>
    requires left { left_class op class ≡ W → a < 2 ^ 32 }
    requires right { right_class op class ≡ W → b < 2 ^ 32 }
    ensures { result ≡ on_integers op class a b }
{
    match op {
        BinaryOp::Compare(on, Class::W) => Some(u64::from(words_hold(on, a as u32, b as u32))),
        BinaryOp::Compare(on, Class::L) => Some(u64::from(longs_hold(on, a, b))),
        _ => match class {
            Class::W => Some(u64::from(on_words(op, a as u32, b as u32)?)),
            Class::L => on_longs(op, a, b),
        },
    }
}

/// The operation on one value of the class of its place; none where it is undefined.
#[tactic(auto, unfolding(il_ast::specs::Operations::operate_one))]
pub fn operate_one(memory: &BlockMemory, op: UnaryOp, class: Class, value: Value) -> Option<Value>
    requires { FitsPlace (operand_class op class) value }
    ensures { result ≡ operate_one memory.now op class value }
{
    match op {
        UnaryOp::Neg => negated(class, value),
        UnaryOp::Copy => Some(value),
        UnaryOp::Extend(extension) => widened(extension, class, value),
        UnaryOp::LoadLong => memory.load(value, Size::Long),
        UnaryOp::Load(extension) => {
            widened(
                extension,
                class,
                memory.load(value, extension_size(extension))?,
            )
        }
    }
}

fn negated(class: Class, value: Value) -> Option<Value>
    requires { FitsPlace class value }
    ensures { result ≡ negated class value }
{
    match value {
        Value::Integer(n) => Some(Value::Integer(match class {
            Class::W => u64::from((n as u32).wrapping_neg()),
            Class::L => n.wrapping_neg(),
        })),
        Value::Pointer { .. } | Value::Function(_) => None,
    }
}

fn widened(extension: Extension, class: Class, value: Value) -> Option<Value>
    ensures { result ≡ widened extension class value }
{
    match value {
        Value::Integer(n) => Some(Value::Integer(extended(extension, class, n))),
        Value::Pointer { .. } | Value::Function(_) => None,
    }
}

/// The low bits of a number, widened to a class.
pub(crate) fn extended(extension: Extension, class: Class, number: u64) -> u64
    ensures { result ≡ extended extension class number }
{
    match class {
        Class::W => u64::from(to_word(extension, number)),
        Class::L => to_long(extension, number),
    }
}

/// The size that an extension widens.
pub(crate) fn extension_size(extension: Extension) -> Size
    ensures { byte_count result ≡ extension_bytes extension }
{
    match extension {
        Extension::SignedWord | Extension::UnsignedWord => Size::Word,
        Extension::SignedHalf | Extension::UnsignedHalf => Size::Half,
        Extension::SignedByte | Extension::UnsignedByte => Size::Byte,
    }
}
