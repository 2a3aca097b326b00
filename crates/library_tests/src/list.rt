//! What was pushed stands in a list, and in a short one.

use il_ast::{Few, Seq};
use std::test::Fail;

#[test]
fn a_list_holds_what_was_pushed(rt: HostRuntime) -> Result<(), Fail> {
    let mut numbers = Seq::new(rt.alloc());
    for number in 0..9u8 {
        numbers.push(number)?;
    }
    assert_eq!(rt; numbers.as_slice(), [0, 1, 2, 3, 4, 5, 6, 7, 8].as_slice());
    assert_eq!(rt; numbers.len(), 9);
    Ok(())
}

#[test]
fn a_short_list_holds_what_was_pushed(rt: HostRuntime) -> Result<(), Fail> {
    let mut numbers = Few::new(rt.alloc());
    for number in 0..9u8 {
        numbers.push(number)?;
    }
    assert_eq!(rt; numbers.as_slice(), [0, 1, 2, 3, 4, 5, 6, 7, 8].as_slice());
    assert_eq!(rt; numbers.len(), 9);
    Ok(())
}
