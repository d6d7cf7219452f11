//! Laws of the definitions. Each function does nothing; its clause is the law.

ghost use Rattle.tcl_slice.specs.Runs as runs;

/// An assignment of the whole fact of a goal is a run up to the goal: the values that the lines take are an input, and in
/// the run from it each variable that is defined before the goal has its value in the assignment, and each line up to the
/// goal says, and computes to, what it does there.
pub fn whole_assignments_run()
    ensures { runs.WholeAssignmentsRun }
{}
