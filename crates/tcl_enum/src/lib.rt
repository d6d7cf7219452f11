//! Facts of few free bits, decided by going through all assignments of these bits.
#![tactic(auto)]

mod assigning;
mod denial;
mod ended;
mod laws;
mod narrow;
mod walking;

pub use ended::{Ended, FreeValue, FreeValues};
pub use laws::walks_decide;
pub use walking::enumerate;
