// What a test expects.

use std::process::Abort;

/// The text is as wanted.
pub(crate) fn agree(rt: &impl Abort, made: &str, wanted: &str) {
    assert!(rt; made == wanted, "{made}, not {wanted}");
}

/// So many polls came.
pub(crate) fn agree_on_polls(rt: &impl Abort, made: u64, wanted: u64) {
    assert!(rt; made == wanted, "{made} polls, not {wanted}");
}
