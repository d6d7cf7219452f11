//! Why an entry does not check.

/// The first reason against an entry. Those of the entry itself come first, in this order, then those of its certificate,
/// and `Break` for an input.
#[derive(Clone, Copy, PartialEq, Eq)]
pub enum Reason {
    /// The goal or the level does not exist, or a bit of the clause is not one of a variable defined before that goal.
    Claim,
    /// A hypothesis is no part of the precondition, no assumption, no goal and no lemma of the list.
    Hyp,
    /// The hypotheses do not increase by their keys, or one is not smaller than the claim.
    Order,
    /// The uses do not increase, or one is no instruction before the claim's place.
    Uses,
    /// A bit stands twice in the cube, or is not one of a variable defined before the claim's place.
    Cube,
    /// The claim is algebraic, or does not follow from the intervals.
    Bounds,
    /// There are more than 20 free bits, a line is wide, or an assignment fails.
    Enum,
    /// The claim is algebraic, or the fact has more than 4,194,304 clauses.
    LogSize,
    /// The line of this number, counted from 0, is the first that is no chain.
    Log(usize),
    /// All lines are chains, and none derives the empty clause.
    LogEnd,
    /// The claim is no equation, or one that is wide or large; an equation's number is out of range, the degrees of a cofactor
    /// and its equation add to more than 1,024, or the sum of the products is not the claim's polynomial.
    Cofactors,
    /// Over whole numbers the sum of the products of the norms is 2^127 or more.
    Wide,
    /// An item is no earlier fact of the same claim, has a hypothesis or a use that the fact has not, or gives a bit another
    /// value than the fact's cube; the cubes of the items name more than 22 different bits, or do not cover the assignments
    /// that meet the fact's cube.
    Cases,
    /// The input does not fit, or does not break the goal.
    Break,
}
