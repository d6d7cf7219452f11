//! Laws of the definitions. Each function does nothing; its clause is the law.

ghost use Rattle.tcl_lang.specs.FormLaws as form_laws;
ghost use Rattle.tcl_lang.specs.Laws as laws;
ghost use Rattle.tcl_lang.specs.ValueLaws as value_laws;

/// The wrapped value is the only value of the type that is congruent to the integer.
pub fn one_value_wraps()
    ensures { laws.OneWrap }
{}

/// The equations that define an instruction and the function that computes its results agree.
pub fn rows_agree_with_results()
    ensures { laws.RowsAgree }
{}

/// The test of an algebraic predicate is true exactly where the equation or the congruence holds.
pub fn tests_agree_with_equations()
    ensures { laws.TestsAgree }
{}

/// A power 0 is 1, also of 0.
pub fn power_zero_is_one()
    ensures { laws.PowerZeroIsOne }
{}

/// Runs of well typed programs exist, and their stores hold values of the types that typing gives.
pub fn well_typed_programs_run()
    ensures runnable { laws.WellTypedRuns }
    ensures typed { laws.RunsAreTyped }
{}

/// An input that refutes a goal by the computed truths refutes it.
pub fn checked_counterexamples_refute()
    ensures { laws.CheckedRefutes }
{}

/// A program is correct exactly where no input refutes a goal, and an input refutes one goal at most.
pub fn correct_programs_have_no_counterexample()
    ensures correct { laws.CorrectMeansNoCounterexample }
    ensures once { laws.OneGoalRefuted }
{}

/// The versioned form of a well typed program says what the program says. Before each line the word of a name is the word
/// of its current version in the form's run; each line has the same truth and the same computed truth in both runs; both
/// are correct or neither is, and the same inputs refute the same goals.
pub fn forms_agree()
    ensures words { form_laws.VersionsHoldWords }
    ensures truth { form_laws.FormsKeepTruth }
    ensures computed { form_laws.FormsKeepComputed }
    ensures correct { form_laws.FormsAgree }
    ensures refuted { form_laws.FormsAreRefutedAlike }
{}

/// Each versioned form of a program is well formed, and then the variables that are defined before a line are the first.
pub fn forms_are_well_formed()
    ensures formed { form_laws.FormsAreWellFormed }
    ensures defined { form_laws.DefinedAreFirst }
    ensures reads { form_laws.ReadsAreDefined }
{}

/// Each line of a run does what it says: an instruction follows its row, an `in` line takes its value, and no other name
/// changes.
pub fn runs_follow_rows()
    ensures rows { laws.RunsFollowRows }
    ensures inputs { laws.RunsTakeInputs }
    ensures others { laws.RunsKeepOthers }
{}

/// What a line says, and what can be computed of it, depends on the words of the names that it reads alone.
pub fn truth_is_local()
    ensures truth { laws.TruthIsLocal }
    ensures computed { laws.ComputedIsLocal }
{}

/// The computed truth: `Yes` is true, `No` is false, and a line that keeps the static bounds is never `Wide`.
pub fn computed_truth_is_true()
    ensures yes { laws.YesIsTrue }
    ensures no { laws.NoIsFalse }
    ensures narrow { laws.NarrowIsTold }
{}

/// In a versioned form a variable keeps its word to the end of a run, so the store at the end tells each line's truth in
/// its place, and holds a value of its type for each variable, with each instruction executed.
pub fn variables_keep_their_words()
    ensures keep { form_laws.VariablesKeep }
    ensures truth { form_laws.EndsKeepTruth }
    ensures computed { form_laws.EndsKeepComputed }
    ensures executed { form_laws.EndsAreExecuted }
    ensures typed { form_laws.EndsAreTyped }
{}

/// A run over plain values has the values of the run over stores; the words of its trace are the store at the end, so each
/// line is as true of the trace as it is in the run.
pub fn values_run()
    ensures values { value_laws.ValuesRun }
    ensures before { value_laws.RunsAreValues }
    ensures ends { value_laws.TracesAreEnds }
    ensures typed { value_laws.TracesAreValues }
    ensures truth { value_laws.TracesKeepTruth }
    ensures computed { value_laws.TracesKeepComputed }
{}

/// At any values in their types an instruction of a well formed program can be executed, and a step on the values is the
/// execution on their words; it leaves values in their types, and changes no other.
pub fn values_step()
    ensures words { value_laws.WordsHoldValues }
    ensures executable { value_laws.StepsCanExecute }
    ensures executes { value_laws.StepsExecute }
    ensures typed { value_laws.StepsKeepTypes }
    ensures others { value_laws.StepsKeepOthers }
{}

/// What a walk over values rests on: operands and sizes are read from the values and from the types of the variables, a
/// line that keeps the static bounds is never `Wide`, and an instruction that was computed is executed.
pub fn values_walk()
    ensures operands { value_laws.OperandsAreRead }
    ensures sizes { value_laws.SizesAreStatic }
    ensures narrow { value_laws.NarrowIsTold }
    ensures executed { value_laws.StepsAreExecuted }
    ensures typed { value_laws.RecomputedIsTyped }
    ensures anew { value_laws.RecomputedIsExecuted }
{}
