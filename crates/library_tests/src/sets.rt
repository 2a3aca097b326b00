//! Sets of numbers of each size.
use bitset::BitSet;
use std::alloc::{AllocError, Global};
use std::process::Abort;
use std::test::Fail;

/// The multiples of `step` below the length.
fn multiples(
    rt: &impl Abort,
    alloc: Global,
    length: usize,
    step: usize,
) -> Result<BitSet, AllocError> {
    let mut set = BitSet::new(alloc, length)?;
    for i in 0..length {
        if i.is_multiple_of(step) {
            assert!(rt; i < set.len());
            set.insert(i);
        }
    }
    Ok(set)
}

/// Whether some number is in the set.
fn has_some(set: &BitSet) -> bool {
    (0..set.len()).any(|i| i < set.len() && set.contains(i))
}

/// Adds the multiples of three, and once more, which adds none.
fn unite(rt: &impl Abort, set: &mut BitSet, threes: &BitSet) {
    let length = set.len();
    assert!(rt; threes.len() == length);
    assert_eq!(rt; set.union_into(threes), length > 3, "{length} numbers");
    assert!(rt; set.len() == length);
    assert!(rt; !set.union_into(threes), "{length} numbers, again");
}

/// Whether the set holds the multiples of two, and with those of three or without them, each number asked for.
fn holds(rt: &impl Abort, set: &BitSet, with_threes: bool) {
    for i in 0..set.len() {
        assert!(rt; i < set.len());
        let is_held = if i % 3 == 0 { with_threes } else { i % 2 == 0 };
        assert_eq!(rt; set.contains(i), is_held, "{i}, {with_threes}");
    }
}

/// Takes one number out, and the others stay.
fn take_two_out(rt: &impl Abort, set: &mut BitSet) {
    if set.len() > 2 {
        set.remove(2);
        assert!(rt; 2 < set.len() && !set.contains(2));
        assert!(rt; set.len() < 5 || set.contains(4));
    }
}

fn set_of(rt: &impl Abort, alloc: Global, length: usize) -> Result<(), AllocError> {
    let threes = multiples(rt, alloc, length, 3)?;
    let mut set = multiples(rt, alloc, length, 2)?;
    unite(rt, &mut set, &threes);
    holds(rt, &set, true);
    assert!(rt; set.len() == threes.len());
    set.minus(&threes);
    holds(rt, &set, false);
    take_two_out(rt, &mut set);
    set.clear();
    assert!(rt; set.len() == length && !has_some(&set), "{length}, cleared");
    Ok(())
}

#[test]
fn sets_of_each_size(rt: HostRuntime) -> Result<(), Fail> {
    for length in [0, 1, 63, 64, 65, 511, 512, 513] {
        set_of(&rt, rt.alloc(), length)?;
    }
    Ok(())
}
