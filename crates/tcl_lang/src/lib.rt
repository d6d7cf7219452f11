//! The language: its types, the definitions of what a program means, and the plain program of a step and a run.
#![tactic(auto)]

mod arithmetic;
mod exactness;
mod instr;
mod laws;
mod names;
mod outcome;
mod pred;
mod program;
mod range;
mod reason;
mod result_values;
mod running;
mod step;
mod term;
mod ty;
mod variable;
mod wrapping;

pub use exactness::{is_exact, is_exact_at};
pub use instr::{Args, Atom, Instr, Op, Outs};
pub use laws::{
    checked_counterexamples_refute, computed_truth_is_true,
    correct_programs_have_no_counterexample, forms_agree, forms_are_well_formed, one_value_wraps,
    power_zero_is_one, rows_agree_with_results, runs_follow_rows, tests_agree_with_equations,
    truth_is_local, values_run, values_step, values_walk, variables_keep_their_words,
    well_typed_programs_run,
};
pub use names::{NameVisitor, definitions_before};
pub use outcome::{Input, Trace, Truth};
pub use pred::{Line, Pred};
pub use program::{Lines, Names, Parsed, Places, Program, Ssa, Typed, Variables};
pub use range::{CmpOp, RngOp, RngPred, RngTerm};
pub use reason::Reason;
pub use result_values::Results;
pub use running::{execute, pass, run, run_before, word_at};
pub use step::{results, wrapped_product};
pub use term::{AlgPred, Modulus, Part, Term};
pub use ty::{Ty, Word};
pub use variable::{Name, Variable};
pub use wrapping::{in_type, wrap};
