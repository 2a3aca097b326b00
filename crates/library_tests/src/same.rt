//! The comparison that most tests make: a call of it is proved at once, where the lines of an assertion take seconds.
use std::process::Abort;

/// Stops the test where the numbers aren't the same.
pub(crate) fn is_number(rt: &impl Abort, found: usize, wanted: usize) {
    assert_eq!(rt; found, wanted);
}
