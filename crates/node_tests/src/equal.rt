//! The comparison of the tests.
use std::fmt::Debug;
use std::process::Abort;

/// Compares what was found with what is expected. To prove a call of it costs less than to prove an assertion in each
/// place.
pub(crate) fn is<T: PartialEq + Debug + Copy>(rt: &impl Abort, found: T, expected: T) {
    assert_eq!(rt; found, expected);
}
