//! Laws of the definitions. Each function does nothing; its clause is the law.

ghost use Rattle.tcl_blast.specs.Laws as laws;
ghost use Rattle.tcl_blast.specs.ModelRuns as runs;
ghost use Rattle.tcl_blast.specs.Models as models;

/// An assignment of a fact in order that meets its hypotheses and its cube and denies its claim meets its clauses, by some
/// values of their variables. So the claim of a fact in order whose clauses no values meet holds of every assignment.
pub fn denials_meet_clauses()
    ensures meet { laws.DenialsMeetClauses }
    ensures prove { laws.RefutedClausesProve }
{}

/// Values that meet the clauses of a fact in order, whose claim is no algebraic goal, give an assignment of it: each variable
/// has the number of its literals, and 0 where it has none. The assignment meets the cube, the lemmas, the range and the
/// exactness hypotheses, and the bits that algebraic hypotheses fix, and denies the claim.
pub fn models_are_assignments()
    ensures { models.ModelsAreAssignments }
{}

/// And such an assignment of a fact in order meets its clauses, by some values of their variables.
pub fn models_meet_clauses()
    ensures { models.ModelsMeetClauses }
{}

/// A model of the clauses of a fact in order that uses all instructions before its goal, which is no algebraic goal, is a
/// run: that from the input of its bits. A variable that the fact does not name, and one of a line at or after the place of
/// the claim, takes the value 0.
pub fn models_run()
    ensures run { runs.ModelsRun }
    ensures unnamed { runs.UnnamedAreZero }
    ensures later { runs.LaterAreZero }
{}
