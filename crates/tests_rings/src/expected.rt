//! What a test wants of an answer.

use std::process::Abort;
use tcl_poly::PolyFault;

/// The text that was made is the one that is wanted.
pub(crate) fn agree(rt: &impl Abort, made: &str, wanted: &str) {
    assert!(rt; made == wanted, "{made}, not {wanted}");
}

/// A text was made, and it is the one that is wanted.
pub(crate) fn agrees(rt: &impl Abort, made: Result<String, PolyFault>, wanted: &str) {
    match made {
        Ok(text) => agree(rt, text.as_str(), wanted),
        Err(_) => agree(rt, "a fault", wanted),
    }
}

/// What is said of an answer is so.
pub(crate) fn holds(rt: &impl Abort, what: &str, is_so: bool) {
    assert!(rt; is_so, "{what}");
}
