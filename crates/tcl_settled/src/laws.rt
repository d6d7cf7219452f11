//! Laws of the definitions. Each function does nothing; its clause is the law.

ghost use Rattle.tcl_settled.specs.Laws as laws;

/// A fact in order that is settled holds in every run.
pub fn settled_facts_hold()
    ensures { laws.SettledHold }
{}

/// No cause is true of a piece of no cube whose fact is settled.
pub fn causes_are_unsettled()
    ensures { laws.CausesAreUnsettled }
{}
