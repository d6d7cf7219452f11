//! What a test wants of an answer.

use std::process::Abort;

/// What is said of an answer is so.
pub(crate) fn holds(rt: &impl Abort, what: &str, is_so: bool) {
    assert!(rt; is_so, "{what}");
}
