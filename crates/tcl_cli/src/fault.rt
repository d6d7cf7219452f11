//! Why the words give no options.

use thiserror::Error;

/// Why the words give no options.
#[derive(Debug, Drop, Error)]
pub enum UsageFault {
    /// The words are not in the form, or an option's value is out of its range.
    #[error("the words are not in the form")]
    Words,
    /// Memory has run out.
    #[error("out of memory")]
    Memory,
}
