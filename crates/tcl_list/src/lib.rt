//! The list type of the project, which contracts see as a list of items, and how an item copies and compares itself.
#![tactic(auto)]

mod copies;
mod listing;
mod same;

pub use copies::Copies;
pub use listing::Listing;
pub use same::Same;
