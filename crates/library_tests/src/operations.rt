//! Operations on integers and pointers.

use il_ast::{BinaryOp, Class, Condition, Value};
use il_interp::operate::operate_two;
use il_mem::memory::BlockMemory;
use std::test::Fail;

#[test]
fn integers_and_pointers(rt: HostRuntime) -> Result<(), Fail> {
    let mut memory = BlockMemory::new(rt.alloc());
    let block = memory.fresh(4)?;
    let minus_seven = Value::Integer(0xffff_fff9);
    let quotient = operate_two(
        &memory,
        BinaryOp::Div,
        Class::W,
        minus_seven,
        Value::Integer(2),
    );
    assert_eq!(rt; quotient, Some(Value::Integer(0xffff_fffd)));
    let pointer = Value::Pointer { block, offset: 1 };
    let moved = operate_two(&memory, BinaryOp::Add, Class::L, Value::Integer(3), pointer);
    assert_eq!(rt; moved, Some(Value::Pointer { block, offset: 4 }));
    let equal = BinaryOp::Compare(Condition::Equal, Class::L);
    let null = operate_two(&memory, equal, Class::W, Value::Integer(0), pointer);
    assert_eq!(rt; null, Some(Value::Integer(0)));
    let shifted = operate_two(&memory, BinaryOp::Shl, Class::L, pointer, Value::Integer(1));
    assert_eq!(rt; shifted, None);
    Ok(())
}
