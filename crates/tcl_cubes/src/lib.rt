//! Cubes that cover all assignments of a cube.
#![tactic(auto)]

mod bits;
mod covering;
mod laws;

pub use bits::names_at_most;
pub use covering::are_covering;
pub use laws::splits_decide;
