//! Laws of the definitions. Each function does nothing; its clause is the law.

ghost use Rattle.tcl_bounds.specs.Encloses as laws;

/// Every assignment of a fact that meets its hypotheses lies in its intervals.
pub fn assignments_lie_in_bounds()
    ensures { laws.BoundsEnclose }
{}

/// A claim that follows from intervals holds at all values that lie in them.
pub fn what_follows_holds()
    ensures { laws.FollowsHolds }
{}

/// So a fact holds where its claim follows from its intervals.
pub fn bounds_decide()
    ensures { laws.BoundsDecide }
{}

/// A comparison is taken to hold exactly where it holds for all pairs of values of two intervals.
pub fn comparisons_hold_for_all_pairs()
    ensures { laws.AlwaysMeansAllPairs }
{}
