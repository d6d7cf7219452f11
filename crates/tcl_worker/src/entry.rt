//! Hypotheses with their keys.

use tcl_goals::{Hyp, Key};

/// A hypothesis with its key.
#[derive(Clone, Copy)]
pub(crate) struct Entry {
    pub(crate) key: Key,
    pub(crate) hyp: Hyp,
}
