//! Loads and stores, by the bytes and parts that they move.

use il_ast::{Callee, Size, Value};
use il_mem::memory::{BlockId, BlockMemory};
use std::alloc::AllocError;
use std::process::Abort;

fn pointer(block: BlockId, offset: u64) -> Value {
    Value::Pointer { block, offset }
}

fn loads(rt: &impl Abort, memory: &BlockMemory, from: Value, size: Size, wanted: Option<Value>) {
    let loaded = memory.load(from, size);
    assert!(rt; loaded == wanted, "{size:?} from {from:?}: {loaded:?}");
}

// A long of the bytes from 0x11 to 0x88 in a block of 9 bytes, from the second one on.
#[test]
fn numbers_go_by_their_bytes(rt: HostRuntime) -> Result<(), AllocError> {
    let mut memory = BlockMemory::new(rt.alloc());
    let block = memory.fresh(9)?;
    let number = Value::Integer(0x8877665544332211);
    let _ = memory.store(pointer(block, 1), number, Size::Long);
    loads(&rt, &memory, pointer(block, 1), Size::Long, Some(number));
    let half = Some(Value::Integer(0x3322));
    loads(&rt, &memory, pointer(block, 2), Size::Half, half);
    // blank, and past the end
    loads(&rt, &memory, pointer(block, 0), Size::Byte, None);
    loads(&rt, &memory, pointer(block, 2), Size::Long, None);
    Ok(())
}

/// A value of eight parts, kept from the fifth byte of a block on, goes with all of them or not at all.
fn keeps_parts(rt: &impl Abort, memory: &mut BlockMemory, block: BlockId, other: BlockId) {
    let kept = Value::Function(Callee::Defined(3));
    let _ = memory.store(pointer(block, 4), kept, Size::Long);
    loads(rt, memory, pointer(block, 4), Size::Long, Some(kept));
    // one part
    loads(rt, memory, pointer(block, 4), Size::Byte, None);
    let copied = memory.copy(pointer(block, 0), pointer(other, 8), 16);
    assert!(rt; copied.is_some());
    loads(rt, memory, pointer(other, 12), Size::Long, Some(kept));
    let overlapping = memory.copy(pointer(block, 4), pointer(block, 8), 8);
    assert!(rt; overlapping.is_none());
    memory.free(block);
    loads(rt, memory, pointer(block, 4), Size::Long, None);
}

#[test]
fn values_keep_their_parts(rt: HostRuntime) -> Result<(), AllocError> {
    let mut memory = BlockMemory::new(rt.alloc());
    let block = memory.fresh(16)?;
    let other = memory.fresh(24)?;
    let third = memory.fresh(1)?;
    assert!(rt; block == 0 && other == 1 && third == 2);
    keeps_parts(&rt, &mut memory, block, other);
    Ok(())
}

// A block larger than any memory is refused, and what was there stays.
#[test]
fn refused_growth_changes_nothing(rt: HostRuntime) -> Result<(), AllocError> {
    let mut memory = BlockMemory::new(rt.alloc());
    let block = memory.fresh(8)?;
    let seven = Value::Integer(7);
    let _ = memory.store(pointer(block, 0), seven, Size::Long);
    assert!(rt; memory.fresh(usize::MAX).is_err());
    assert!(rt; memory.made() == 1 && memory.size(1).is_none());
    loads(&rt, &memory, pointer(block, 0), Size::Long, Some(seven));
    Ok(())
}
