//! Integer arithmetic that std lacks: ring laws, congruence, the values of a word, saturating counts and residues.
#![tactic(auto)]

mod count;
mod magnitude;
mod range;
mod residue;

pub use count::{saturating_product, saturating_sum};
pub use magnitude::{is_small, small_negation, small_product, small_sum, small_sum_with_product};
pub use range::{in_range, least_value, low_mask, lowest_bits, power_of_two, values_end, wrap_to};
pub use residue::{add_mod, mul_mod};
