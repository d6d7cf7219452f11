//! Rows with pivots, as a search for constant combinations keeps them: the laws, one step, a row added, a target reduced.
#![tactic(auto)]

mod coefficient;
mod cofactor_sum;
mod laws;
mod lookup;
mod row;
mod row_addition;
mod row_reduction;
mod row_step;
mod rows;
mod target_reduction;
mod target_step;
mod weight;

pub use laws::{cofactors_show, open_is_apart, rows_span, rows_vanish};
pub use row::{Pivot, Row, Target};
pub use rows::{Note, Rows};
