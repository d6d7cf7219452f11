// What a test wants of an answer.

use std::process::Abort;

/// The text that was made is the one that is wanted.
pub(crate) fn agree(rt: &impl Abort, what: &str, made: &str, wanted: &str) {
    assert!(rt; made == wanted, "{what}: {made}, not {wanted}");
}

/// What is said of an answer is so.
pub(crate) fn holds(rt: &impl Abort, what: &str, is_so: bool) {
    assert!(rt; is_so, "{what}");
}
