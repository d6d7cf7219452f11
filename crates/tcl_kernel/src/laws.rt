//! Laws of the definitions. Each function does nothing; its clause is the law.

ghost use Rattle.tcl_kernel.specs.CauseLaws as cause_laws;
ghost use Rattle.tcl_kernel.specs.Laws as laws;

use tcl_blast::laws::models_are_assignments;

/// There is no reason against a fact with its certificate exactly where the fact is in order and the certificate shows it.
pub fn reasons_are_exact()
    ensures entries { laws.EntriesAreInOrder }
    ensures reasons { laws.ReasonsAreExact }
{}

/// Each kind of certificate is sound, so a fact that checks after facts that stand stands under the earlier lemmas, and under
/// those that it cites.
pub fn certificates_are_sound()
    ensures bounds { laws.BoundsAreSound }
    ensures enumeration { laws.EnumerationIsSound }
    ensures logs { laws.LogsAreSound }
    ensures cofactors { laws.CofactorsAreSound }
    ensures cases { laws.CasesAreSound }
    ensures checks { laws.ChecksAreSound }
    ensures cited { laws.CitedAreEnough }
{}

/// Facts are added one after the other: a proof keeps only lemmas of the list under which it was checked, and after a fact was
/// added under a number the next number may follow.
pub fn facts_are_added()
    ensures cited { laws.CitedAreAmong }
    ensures below { laws.AddedAreBelow }
{}

/// An input that checks refutes the goal.
pub fn checked_breaks_refute()
    ensures { laws.BreaksRefute }
{}

/// Bits that meet the clauses of a fact in order that is one of the whole route of a goal, which is no algebraic one, give an
/// input that refutes the goal, or of which a hypothesis strays: the first that is not computed as `Yes`, an algebraic line.
pub fn models_stray()
    ensures whole { cause_laws.WholeFactsAreWhole }
    ensures pieces { cause_laws.WholePiecesAreWhole }
    ensures stray { cause_laws.ModelsStray }
{}

/// An input that has a goal computed as `No` as its first stray refutes this goal.
pub fn strays_break()
    ensures { cause_laws.StraysBreak }
{}

/// A model of the clauses of a cut piece, or a denial at which the walk of its assignments ends, is a true cause of the piece.
pub fn cut_models_are_true()
    ensures models { cause_laws.ModelsAreCuts }
    ensures denials { cause_laws.DenialsAreCuts }
{
    models_are_assignments();
}

/// What a search or a reduction ends with is a true cause of a piece that is left open: a log of as many fresh clauses as the
/// budget, none of them empty; too many clauses; all that plain reduction makes of a claim but that nothing is left.
pub fn search_ends_are_true()
    ensures logs { cause_laws.FreshLogsAreSpent }
    ensures clauses { cause_laws.ManyClausesAreLarge }
    ensures reductions { cause_laws.OutcomesAreCauses }
{}
