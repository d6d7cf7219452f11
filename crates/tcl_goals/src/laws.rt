//! Laws of the definitions. Each function does nothing; its clause is the law.

ghost use Rattle.tcl_goals.specs.Laws as laws;
ghost use Rattle.tcl_goals.specs.Closure as closures;

/// Where every goal has a fact with an empty cube, in order, that holds under sound lemmas, the program is correct. A
/// lemma that has such a fact is sound.
pub fn facts_give_correctness()
    ensures correct { laws.FactsGiveCorrectness }
    ensures sound { laws.LemmaFactsAreSound }
{}

/// A run gives an assignment of each fact, so a fact holds where its claim holds in every assignment.
pub fn runs_assign()
    ensures assigns { laws.RunsAssign }
    ensures decide { laws.AssignmentsDecide }
{}

/// A fact of a goal gives the goal in the runs in which its cube holds, and a goal that holds in every run that meets all
/// before it is refuted by no input.
pub fn sound_goals_unbroken()
    ensures facts { laws.PieceFactsHold }
    ensures unbroken { laws.SoundGoalsUnbroken }
{}

/// A longer list of lemmas keeps the order of a fact and its truth.
pub fn longer_lists_keep_facts()
    ensures order { laws.LongerListsKeepOrder }
    ensures truth { laws.LongerListsKeepTruth }
    ensures appended { laws.AppendedExtends }
{}

/// The variables of a slice are the least closed set.
pub fn slices_are_least()
    ensures least { closures.ClosureIsLeast }
    ensures one { closures.OneLeastClosed }
{}

/// A plan has pieces alone, and the fact of a piece is in order with its cube.
pub fn pieces_are_in_order()
    ensures planned { laws.PlansHavePieces }
    ensures order { laws.PieceFactsAreInOrder }
{}
