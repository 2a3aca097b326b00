//! Loads and stores of integers by pointers that temporaries hold, and sums of these.
ghost use Rattle.std.specs.Prelude.{◌≡◌, List, Some, IfSome, MatchBool};
ghost use Rattle.il_ast.specs.declared.instruction.Inst.TheVariants.{Unary, Binary, Store};
ghost use Rattle.il_ast.specs.declared.operation.Class.TheVariants.{L};
ghost use Rattle.il_ast.specs.declared.value.Value.{Value as ValueOf};
ghost use Rattle.il_ast.specs.declared.value.Value.TheVariants.{Integer, Pointer};
ghost use Rattle.il_ast.specs.Prelude.{value_at, Memory, operand_class, operate_one};
ghost use Rattle.il_interp.specs.Rows.{held, Does};

use crate::numbers::{in_class, number_at};
use crate::operate::{extended, extension_size};
use crate::slots::Slots;
use il_ast::{BinaryOp, Class, Dest, Size, UnaryOp, Val};
use il_mem::memory::BlockMemory;
use il_types::classes::stored_class;

/// The block and the offset that an operand points to, where that is a temporary that holds a pointer.
fn pointed(temps: &Slots, value: &Val) -> Option<(u128, u64)>
    ensures { IfSome result (λ place. (globals : List ValueOf) → value_at globals temps.now value.now ≡ Some (Pointer place.0 place.1)) }
{
    match value {
        Val::Temp(temp) => temps.pointer(temp.number()),
        Val::Int(_) => None,
        Val::Global(_) => None,
    }
}

/// The number that an operation loads, where it loads one.
fn loaded(memory: &BlockMemory, op: UnaryOp, class: Class, block: u128, offset: u64) -> Option<u64>
    ensures value { IfSome result (λ number. operate_one memory.now op class (Pointer block offset) ≡ Some (Integer number)) }
    ensures place { IfSome result (λ number. operand_class op class ≡ L) }
{
    match op {
        UnaryOp::LoadLong => memory.load_number(block, offset, Size::Long),
        UnaryOp::Load(extension) => {
            let number = memory.load_number(block, offset, extension_size(extension))?;
            Some(extended(extension, class, number))
        }
        UnaryOp::Neg | UnaryOp::Copy | UnaryOp::Extend(_) => None,
    }
}

/// `to = op at`, where that loads a number. Answers whether it was done.
pub fn load(temps: &mut Slots, memory: &BlockMemory, to: &Dest, op: &UnaryOp, at: &Val) -> bool
    ensures { MatchBool result ((globals : List ValueOf) → Does globals (held temps.old memory.now) (Unary to.now op.now at.now) (held temps.new memory.now)) (temps.new ≡ temps.old) }
{
    if let Some((block, offset)) = pointed(temps, at)
        && let Some(number) = loaded(memory, *op, to.class, block, offset)
    {
        temps.set_number(to.temp.number(), number);
        return true;
    }
    false
}

/// `store value, at`, where the value is an integer and the store is defined. Answers whether it was done.
pub fn store(temps: &Slots, memory: &mut BlockMemory, size: &Size, value: &Val, at: &Val) -> bool
    ensures { MatchBool result ((globals : List ValueOf) → Does globals (held temps.now memory.old) (Store size.now value.now at.now) (held temps.now memory.new)) (memory.new ≡ memory.old) }
{
    if let Some(number) = number_at(temps, value)
        && let Some((block, offset)) = pointed(temps, at)
    {
        return memory.store_number(block, offset, *size, in_class(stored_class(*size), number));
    }
    false
}

/// `to = add left, right`, where `left` is a temporary that holds a pointer, and `right` an integer. Answers
/// whether it was done.
pub fn add(temps: &mut Slots, to: &Dest, op: &BinaryOp, left: &Val, right: &Val) -> bool
    ensures { MatchBool result ((globals : List ValueOf) (m : Memory) → Does globals (held temps.old m) (Binary to.now op.now left.now right.now) (held temps.new m)) (temps.new ≡ temps.old) }
{
    if let Class::L = to.class
        && let BinaryOp::Add = op
        && let Val::Temp(base) = left
        && let Some(by) = number_at(temps, right)
    {
        return temps.set_moved(to.temp.number(), base.number(), by);
    }
    false
}
