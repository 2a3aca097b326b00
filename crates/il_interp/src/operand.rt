//! The values of operands.
ghost use Rattle.std.specs.Prelude.{◌≡◌, slice_get, Some, None, IfSome, IfOk, MatchOption};
ghost use Rattle.il_ast.specs.Prelude.{target_value, globals_of, value_at, operand, all_operands, in_place};
ghost use Rattle.obj_link.specs.Prelude.{shown, program};
ghost use Rattle.il_interp.specs.Operands.{FitsPlace};

use crate::slots::Slots;
use il_ast::{Arg, Block, Class, Func, InText, Target, Val, Value};
use obj_link::Linked;
use smallvec::SmallVec;
use std::alloc::{AllocError, Global};

/// A function of the program by its number.
#[tactic(auto, using(crate::proofs::ListLemmas::mapped))]
pub fn function_at<'a>(linked: &'a Linked<'_>, number: usize) -> Option<&'a InText<&'a Func>>
    ensures { MatchOption result (slice_get (program linked.now).functions number ≡ None) (λ found. slice_get (program linked.now).functions number ≡ Some (shown found.now)) }
{
    linked.functions.as_slice().get(number)
}

/// The block of a function at a place.
#[tactic(auto, using(crate::proofs::ListLemmas::mapped))]
pub fn block_at<'a>(function: &InText<&'a Func>, place: usize) -> Option<&'a Block>
    ensures { MatchOption result (slice_get (shown function.now).item.blocks place ≡ None) (λ found. slice_get (shown function.now).item.blocks place ≡ Some found.now) }
{
    function.item.blocks.as_slice().get(place)
}

fn target_value(target: Target) -> Value
    ensures { result ≡ target_value target }
{
    match target {
        Target::Code(callee) => Value::Function(callee),
        Target::Object(number) => Value::Pointer {
            block: number as u128,
            offset: 0,
        },
    }
}

/// The value of a global name of a text.
#[tactic(auto, using(crate::proofs::ListLemmas::mapped))]
pub fn global_value(linked: &Linked<'_>, text: usize, symbol: usize) -> Option<Value>
    ensures { result ≡ slice_get (globals_of (program linked.now) text) symbol }
{
    match linked.targets.as_slice().get(text) {
        Some(targets) => match targets.as_slice().get(symbol) {
            Some(target) => Some(target_value(*target)),
            None => None,
        },
        None => None,
    }
}

fn value_at(linked: &Linked<'_>, text: usize, temps: &Slots, value: Val) -> Option<Value>
    ensures { result ≡ value_at (globals_of (program linked.now) text) temps.now value }
{
    match value {
        Val::Int(number) => Some(Value::Integer(number)),
        Val::Temp(temp) => temps.get(temp.number()),
        Val::Global(symbol) => global_value(linked, text, symbol.number()),
    }
}

/// The value of an operand in a place of a class; none for a temporary that isn't assigned yet, and for
/// a pointer or function in the place of a word.
pub fn operand(
    linked: &Linked<'_>,
    text: usize,
    temps: &Slots,
    class: Class,
    value: Val,
) -> Option<Value>
    ensures value { result ≡ operand (globals_of (program linked.now) text) temps.now class value }
    ensures fits { IfSome result (λ found. FitsPlace class found) }
{
    in_place(class, value_at(linked, text, temps, value)?)
}

/// What a place of a class takes of a value: the low 32 bits of an integer for a word, any value for a
/// long.
fn in_place(class: Class, value: Value) -> Option<Value>
    ensures value { result ≡ in_place class value }
    ensures fits { IfSome result (λ found. FitsPlace class found) }
{
    match class {
        Class::W => match value {
            Value::Integer(n) => Some(Value::Integer(n % 0x1_0000_0000)),
            Value::Pointer { .. } | Value::Function(_) => None,
        },
        Class::L => Some(value),
    }
}

/// The values of the arguments of a call, or none where one has none.
pub fn all_operands(
    alloc: Global,
    linked: &Linked<'_>,
    text: usize,
    temps: &Slots,
    args: &[Arg],
) -> Result<Option<SmallVec<Value, 4, Global>>, AllocError>
    ensures { IfOk result (λ found. MatchOption found (all_operands (globals_of (program linked.now) text) temps.now args.now ≡ None) (λ values. all_operands (globals_of (program linked.now) text) temps.now args.now ≡ Some values.items)) }
{
    let mut values = SmallVec::new(alloc);
    for arg in args {
        match operand(linked, text, temps, arg.class, arg.value) {
            Some(value) => values.push(value)?,
            None => return Ok(None),
        }
    }
    Ok(Some(values))
}
