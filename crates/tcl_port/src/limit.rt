//! The words in which a bound that was met is named.

/// Where numbers became too great: at the claim itself, or at the line of this place.
#[derive(Clone, Copy, PartialEq, Eq)]
pub enum At {
    Claim,
    Line(u32),
}

/// What passed its stated size.
#[derive(Clone, Copy, PartialEq, Eq)]
pub enum What {
    Clauses,
    Degree,
    Terms,
}
