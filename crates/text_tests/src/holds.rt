//! The assertion of the tests.

use std::process::Abort;

/// Asserts that a case is right.
pub(crate) fn holds(rt: &impl Abort, is_right: bool) {
    assert!(rt; is_right);
}
