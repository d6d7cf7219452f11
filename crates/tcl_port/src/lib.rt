//! What a search is to those that start it: the port by which it asks whether it is still wanted, and the names of the bounds
//! that it met.
#![tactic(auto)]

mod limit;
mod port;

pub use limit::{At, What};
pub use port::{Poll, Port};
