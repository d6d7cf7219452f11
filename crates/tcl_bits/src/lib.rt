//! Laws of binary words of every length: lists of Booleans, lowest bit first, as unsigned numbers and as signed ones in two's
//! complement, and what the circuits of word arithmetic compute on them. The functions named `.._laws` do nothing: their
//! clauses are the laws, and their proofs show them. Two programs compute by the same definitions.
#![tactic(auto)]

mod laws;
mod programs;

pub use laws::{
    bitwise_laws, comparison_laws, exactness_laws, product_laws, range_laws, sum_laws, value_laws,
    width_laws,
};
pub use programs::{Sum, add, is_less};
