// What a test wants of an answer.

use std::process::Abort;

/// The word of an answer on a goal is the one that is wanted.
pub(crate) fn agree(rt: &impl Abort, goal: u32, made: &str, wanted: &str) {
    assert!(rt; made == wanted, "goal {goal}: {made}, not {wanted}");
}
