// What follows from the definitions alone. The functions do nothing: their contracts are the laws.

ghost use Rattle.std.specs.Prelude.{◌≡◌, ℕ, Bool, List};
ghost use Rattle.tcl_cnf.specs.Clause.{Satisfies, HaveNoSolution, Follows};
ghost use Rattle.tcl_cnf.specs.Resolution.{chain_of};
ghost use Rattle.tcl_cnf.specs.Propagation.{ConflictsAtOnce, IsFresh};
ghost use Rattle.tcl_cnf.specs.Renaming.{HasRenamed};
ghost use Rattle.tcl_cnf.specs.Log.{log_answer};

use crate::answer::LogAnswer;

/// What a chain of resolutions derives is true wherever all clauses are.
pub fn chains_follow()
    ensures { (clauses : List (List ℕ)) (chain c : List ℕ) → chain_of clauses chain ≡ Some c → Follows clauses c }
{}

/// Where the answer to a log is a refutation, no values make every clause true.
pub fn refutation_has_no_solution()
    ensures { (clauses lines : List (List ℕ)) → log_answer clauses lines ≡ LogAnswer.Refutes → HaveNoSolution clauses }
{}

/// Where unit propagation alone meets a false clause, no clause is fresh.
pub fn no_fresh_clause_after_a_conflict()
    ensures { (clauses : List (List ℕ)) (c : List ℕ) → ConflictsAtOnce clauses → IsFresh clauses c → ⊥ }
{}

/// Where some values make every clause true, unit propagation alone meets no false clause.
pub fn no_conflict_with_a_solution()
    ensures { (clauses : List (List ℕ)) (v : ℕ → Bool) → Satisfies v clauses → ConflictsAtOnce clauses → ⊥ }
{}

/// Where unit propagation alone meets a false clause, it meets one in any clauses that have those under a renaming of
/// variables that keeps signs, whatever the other clauses are.
pub fn a_conflict_stays_under_renaming()
    ensures { (name : ℕ → ℕ) (clauses others : List (List ℕ)) → HasRenamed name clauses others → ConflictsAtOnce clauses → ConflictsAtOnce others }
{}
