//! Operations on pointers and functions.
ghost use Rattle.std.specs.Prelude.{◌≡◌};
ghost use Rattle.il_ast.specs.declared.operation.BinaryOp.TheVariants.{Add, Sub};
ghost use Rattle.il_ast.specs.Prelude.{Memory, same_callee, where_different, on_offsets, on_functions, reaches, lies_in, compare_pointers, compare_with_zero, compare_places, on_places};

use il_ast::condition::longs_hold;
use il_ast::{BinaryOp, Callee, Condition, Value};
use il_mem::memory::BlockMemory;

/// The operation where an operand is a pointer or a function; none on two integers.
pub fn on_places(memory: &BlockMemory, op: BinaryOp, left: Value, right: Value) -> Option<Value>
    ensures { result ≡ on_places memory.now op left right }
{
    match op {
        BinaryOp::Add => added(left, right),
        BinaryOp::Sub => subtracted(left, right),
        BinaryOp::Compare(on, _) => {
            let holds = compare_places(memory, on, left, right)?;
            Some(Value::Integer(u64::from(holds)))
        }
        _ => None,
    }
}

fn added(left: Value, right: Value) -> Option<Value>
    ensures { (m : Memory) → result ≡ on_places m Add left right }
{
    match (left, right) {
        (Value::Pointer { block, offset }, Value::Integer(n))
        | (Value::Integer(n), Value::Pointer { block, offset }) => Some(Value::Pointer {
            block,
            offset: offset.wrapping_add(n),
        }),
        _ => None,
    }
}

fn subtracted(left: Value, right: Value) -> Option<Value>
    ensures { (m : Memory) → result ≡ on_places m Sub left right }
{
    match (left, right) {
        (Value::Pointer { block, offset }, Value::Integer(n)) => Some(Value::Pointer {
            block,
            offset: offset.wrapping_sub(n),
        }),
        (
            Value::Pointer { block, offset },
            Value::Pointer {
                block: other,
                offset: place,
            },
        ) if block == other => Some(Value::Integer(offset.wrapping_sub(place))),
        _ => None,
    }
}

fn compare_places(memory: &BlockMemory, on: Condition, left: Value, right: Value) -> Option<bool>
    ensures { result ≡ compare_places memory.now on left right }
{
    match (left, right) {
        (
            Value::Pointer { block, offset },
            Value::Pointer {
                block: other,
                offset: place,
            },
        ) => compare_pointers(memory, on, block, offset, other, place),
        (Value::Pointer { block, offset }, Value::Integer(n))
        | (Value::Integer(n), Value::Pointer { block, offset }) => {
            compare_with_zero(memory, on, n, block, offset)
        }
        (Value::Function(f), Value::Function(g)) => on_functions(on, is_same_callee(f, g)),
        _ => None,
    }
}

fn compare_pointers(
    memory: &BlockMemory,
    on: Condition,
    block: u128,
    offset: u64,
    other: u128,
    place: u64,
) -> Option<bool>
    ensures { result ≡ compare_pointers memory.now on block offset other place }
{
    if block == other {
        if reaches(memory, block, offset) && reaches(memory, other, place) {
            on_offsets(on, offset, place)
        } else {
            None
        }
    } else if lies_in(memory, block, offset) && lies_in(memory, other, place) {
        where_different(on)
    } else {
        None
    }
}

fn compare_with_zero(
    memory: &BlockMemory,
    on: Condition,
    n: u64,
    block: u128,
    offset: u64,
) -> Option<bool>
    ensures { result ≡ compare_with_zero memory.now on n block offset }
{
    if n == 0 && reaches(memory, block, offset) {
        where_different(on)
    } else {
        None
    }
}

fn reaches(memory: &BlockMemory, block: u128, offset: u64) -> bool
    ensures { result ≡ reaches memory.now block offset }
{
    match memory.size(block) {
        Some(size) => offset as usize <= size,
        None => false,
    }
}

fn lies_in(memory: &BlockMemory, block: u128, offset: u64) -> bool
    ensures { result ≡ lies_in memory.now block offset }
{
    match memory.size(block) {
        Some(size) => (offset as usize) < size,
        None => false,
    }
}

fn where_different(on: Condition) -> Option<bool>
    ensures { result ≡ where_different on }
{
    match on {
        Condition::Equal => Some(false),
        Condition::NotEqual => Some(true),
        _ => None,
    }
}

fn on_offsets(on: Condition, offset: u64, place: u64) -> Option<bool>
    ensures { result ≡ on_offsets on offset place }
{
    match on {
        Condition::SignedLessEqual
        | Condition::SignedLess
        | Condition::SignedGreaterEqual
        | Condition::SignedGreater => None,
        _ => Some(longs_hold(on, offset, place)),
    }
}

fn on_functions(on: Condition, same: bool) -> Option<bool>
    ensures { result ≡ on_functions on same }
{
    match on {
        Condition::Equal => Some(same),
        Condition::NotEqual => Some(!same),
        _ => None,
    }
}

fn is_same_callee(left: Callee, right: Callee) -> bool
    ensures { result ≡ same_callee left right }
{
    match (left, right) {
        (Callee::Defined(f), Callee::Defined(g)) => f == g,
        (Callee::SystemWrite, Callee::SystemWrite) => true,
        (Callee::SystemExit, Callee::SystemExit) => true,
        _ => false,
    }
}
