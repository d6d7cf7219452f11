// The answers of a reduction.

use tcl_goals::Remainder;
use tcl_port::{At, What};
use tcl_remainder::CofactorLines;

/// What the plain reduction makes of a claim.
#[derive(Drop)]
pub enum Outcome {
    /// Nothing is left. The claim's polynomial is the sum of these cofactors times the equations of the fact.
    Zero(CofactorLines),
    /// This is left, and is not 0.
    Rest(Remainder),
    /// The claim, or over whole numbers the bound of the norms at a line, is too great.
    Wide(At),
    /// A degree above 1,024 or more than 65,536 terms; both counts stay at 2^32 - 1.
    Large(What, u32),
}
