//! The assertions of these tests.

use std::alloc::AllocError;
use std::process::Abort;

/// Asserts that a case is right.
pub(crate) fn holds(rt: &impl Abort, is_right: bool) {
    assert!(rt; is_right);
}

/// Asserts that there was memory, and that a case is right.
pub(crate) fn holds_with_memory(rt: &impl Abort, is_right: Result<bool, AllocError>) {
    holds(rt, matches!(is_right, Ok(true)));
}

/// Asserts that there was memory, and that no row is the first that is wrong.
pub(crate) fn all_hold<T: Copy>(rt: &impl Abort, first_wrong: Result<Option<T>, AllocError>) {
    holds(rt, matches!(first_wrong, Ok(None)));
}
