//! The rings of the verifier's polynomials: the integers of magnitude below 2^127, and the residues of a modulus.
#![tactic(auto)]

mod euclid;
mod residue;
mod ring;
mod whole;

pub use residue::Residue;
pub use ring::{Ring, Wide};
pub use whole::Whole;
