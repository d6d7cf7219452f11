// The calls over a versioned program.

ghost use Rattle.std.specs.Prelude.{◌≡◌, ◌≢◌, ℕ, ◌/◌, ◌+◌, ◌≤◌, ◌<◌, true, Bool, List, Option, Some, IfOk, OnOk, OnErr, length, slice_get};
ghost use Rattle.tcl_gates.specs.Meaning.{lit_bit, AreWithin, IsPart};
ghost use Rattle.tcl_lang.specs.declared.instr.Instr.{Instr};
ghost use Rattle.tcl_lang.specs.declared.ty.Word.{Word};
ghost use Rattle.tcl_lang.specs.declared.pred.Line.{Line};
ghost use Rattle.tcl_lang.specs.Values.{types_of};
ghost use Rattle.tcl_lang.specs.Names.{range_atoms};
ghost use Rattle.tcl_lang.specs.Line.{predicate_of, values_of};
ghost use Rattle.tcl_lang.specs.Exactness.{has_condition, is_exact};
ghost use Rattle.tcl_lang.specs.Range.{range_truth};
ghost use Rattle.tcl_words.specs.Ranges.{AllWithin, pred_lit};
ghost use Rattle.tcl_words.specs.Steps.{operand_lits, step_gates, step_words, step_condition, atoms_of};
ghost use Rattle.tcl_words.specs.Stores.{ShowsOperands, ShowsResults, HaveWidths};

use crate::predicates::range_pred;
use crate::steps::{instruction_condition, set_instruction};
use crate::words::Words;
use std::alloc::{AllocError, Global};
use tcl_cnf::Lit;
use tcl_gates::Gates;
use tcl_lang::{Line, Op, Pred, RngPred, Ssa, Variables};

/// Gives each result of the instruction at a place its literals. A `nondet` changes nothing, since its variable is free
/// and has its literals already, and neither does a line without an instruction.
///
/// `words` has the literals of each variable by number. Each variable that the instruction reads has as many as its type
/// has bits. After an `Err`, which is that memory has run out, `words` is unchanged, and the gates are those before with
/// a part of the circuit behind them.
#[tactic(auto, using(crate::proofs::Lines::gates_at, crate::proofs::Lines::words_at, crate::proofs::Lines::part_at, crate::proofs::Lines::gates_past, crate::proofs::Lines::words_past, crate::proofs::Forms::step_law, crate::proofs::Forms::line_narrow, crate::proofs::Forms::line_room))]
pub fn instruction(
    alloc: Global,
    gates: &mut Gates,
    words: &mut Words,
    ssa: &Ssa,
    place: u32,
) -> Result<(), AllocError>
    requires words { length words.old ≡ length ssa.now.variables }
    requires within { AllWithin (length gates.old) words.old }
    requires widths { HaveWidths words.old ssa.now.variables (atoms_of (slice_get ssa.now.lines place)) }
    ensures made { OnOk result (gates.new ≡ step_gates gates.old words.old ssa.now.variables (slice_get ssa.now.lines place)) }
    ensures set { OnOk result (words.new ≡ step_words gates.old words.old ssa.now.variables (slice_get ssa.now.lines place)) }

    // For every choice of the free bits, and every store whose words the operands' literals show, the results' literals
    // show the results.
    ensures value { OnOk result ((i : Instr) → slice_get ssa.now.lines place ≡ Some (Line.Step i) → i.op ≢ Op.Nondet
        → ShowsResults gates.old words.old gates.new words.new ssa.now.variables i) }
    ensures still_within { AllWithin (length gates.new) words.new }
    ensures longer { length gates.old ≤ length gates.new }
    ensures part { OnErr result (IsPart gates.old gates.new (step_gates gates.old words.old ssa.now.variables (slice_get ssa.now.lines place))) }
    ensures unchanged { OnErr result (words.new ≡ words.old) }
{
    let lines = ssa.lines();
    if (place as usize) < lines.len() {
        let line = lines.at(place as usize);
        line_words(alloc, gates, words, ssa.variables(), line)?;
        Ok(())
    } else {
        Ok(())
    }
}

/// The same for a line.
#[tactic(auto, using(tcl_gates::proofs::Shown::part_none, tcl_gates::proofs::Shown::begins_same))]
fn line_words(
    alloc: Global,
    gates: &mut Gates,
    words: &mut Words,
    variables: &Variables,
    line: &Line,
) -> Result<(), AllocError>
    requires within { AllWithin (length gates.old) words.old }
    requires narrow { (i : Instr) → line.now ≡ Line.Step i → length (operand_lits words.old i.args 0) ≤ 64 }
    requires room { (i : Instr) → line.now ≡ Line.Step i → (j v : ℕ) → slice_get i.outs j ≡ Some v → v < length words.old }
    ensures made { OnOk result (gates.new ≡ step_gates gates.old words.old variables.now (Some line.now)) }
    ensures set { OnOk result (words.new ≡ step_words gates.old words.old variables.now (Some line.now)) }
    ensures still_within { AllWithin (length gates.new) words.new }
    ensures longer { length gates.old ≤ length gates.new }
    ensures part { OnErr result (IsPart gates.old gates.new (step_gates gates.old words.old variables.now (Some line.now))) }
    ensures unchanged { OnErr result (words.new ≡ words.old) }
{
    match line {
        Line::Step(i) => set_instruction(alloc, gates, words, variables, i),
        _ => Ok(()),
    }
}

/// The literal of the exactness condition of the instruction at a place. It is true where the instruction has none, and
/// at a line without an instruction.
///
/// `words` has the literals of each variable by number. Each variable that the instruction reads has as many as its type
/// has bits. After an `Err`, which is that memory has run out, the gates are those before with a part of the circuit
/// behind them.
#[tactic(auto, using(crate::proofs::Lines::condition_gates_at, crate::proofs::Lines::condition_lit_at, crate::proofs::Lines::condition_part_at, crate::proofs::Lines::condition_gates_past, crate::proofs::Lines::condition_lit_past, crate::proofs::Forms::condition_law, crate::proofs::Forms::line_narrow, crate::proofs::Forms::line_small, crate::proofs::Forms::line_amount))]
pub fn exactness(
    alloc: Global,
    gates: &mut Gates,
    words: &Words,
    ssa: &Ssa,
    place: u32,
) -> Result<Lit, AllocError>
    requires within { AllWithin (length gates.old) words.now }
    requires widths { HaveWidths words.now ssa.now.variables (atoms_of (slice_get ssa.now.lines place)) }
    ensures made { OnOk result (gates.new ≡ (step_condition gates.old words.now ssa.now.variables (slice_get ssa.now.lines place)).gates) }
    ensures lit { IfOk result (λ lit. lit ≡ (step_condition gates.old words.now ssa.now.variables (slice_get ssa.now.lines place)).lit) }

    // For every choice of the free bits, and every store whose words the operands' literals show, the literal shows
    // whether the condition holds.
    ensures value { IfOk result (λ lit. (i : Instr) → slice_get ssa.now.lines place ≡ Some (Line.Step i)
        → (free : List Bool) (store : List Word) → ShowsOperands gates.old free words.now ssa.now.variables store i.args
        → lit_bit gates.new free lit ≡ is_exact i.op i.ty i.amount (values_of store i.args)) }
    ensures still_within { IfOk result (λ lit. lit / 2 ≤ length gates.new) }
    ensures longer { length gates.old ≤ length gates.new }
    ensures part { OnErr result (IsPart gates.old gates.new (step_condition gates.old words.now ssa.now.variables (slice_get ssa.now.lines place)).gates) }
{
    let lines = ssa.lines();
    if (place as usize) < lines.len() {
        let line = lines.at(place as usize);
        let lit = line_condition(alloc, gates, words, ssa.variables(), line)?;
        Ok(lit)
    } else {
        Ok(Lit::of(0))
    }
}

/// The same for a line.
#[tactic(auto, using(tcl_gates::proofs::Shown::part_none, tcl_gates::proofs::Shown::begins_same))]
fn line_condition(
    alloc: Global,
    gates: &mut Gates,
    words: &Words,
    variables: &Variables,
    line: &Line,
) -> Result<Lit, AllocError>
    requires within { AllWithin (length gates.old) words.now }
    requires narrow { (i : Instr) → line.now ≡ Line.Step i → length (operand_lits words.now i.args 0) ≤ 64 }
    requires small { (i : Instr) → line.now ≡ Line.Step i → i.ty.width ≤ 64 }
    requires shift { (i : Instr) → line.now ≡ Line.Step i → i.amount ≤ 64 }
    ensures made { OnOk result (gates.new ≡ (step_condition gates.old words.now variables.now (Some line.now)).gates) }
    ensures lit { IfOk result (λ lit. lit ≡ (step_condition gates.old words.now variables.now (Some line.now)).lit) }
    ensures still_within { IfOk result (λ lit. lit / 2 ≤ length gates.new) }
    ensures longer { length gates.old ≤ length gates.new }
    ensures part { OnErr result (IsPart gates.old gates.new (step_condition gates.old words.now variables.now (Some line.now)).gates) }
{
    match line {
        Line::Step(i) => instruction_condition(alloc, gates, words, variables, i),
        _ => Ok(Lit::of(0)),
    }
}

/// The literal of a range predicate over the variables of a versioned program.
///
/// `words` has the literals of each variable by number. After an `Err`, which is that memory has run out, the gates are
/// those before with a part of the circuit behind them.
#[tactic(auto, using(crate::proofs::Forms::range_law))]
pub fn range(
    alloc: Global,
    gates: &mut Gates,
    words: &Words,
    ssa: &Ssa,
    pred: &RngPred,
) -> Result<Lit, AllocError>
    requires { AllWithin (length gates.old) words.now }
    ensures made { OnOk result (gates.new ≡ (pred_lit words.now (types_of ssa.now.variables) pred.now gates.old).gates) }
    ensures lit { IfOk result (λ lit. lit ≡ (pred_lit words.now (types_of ssa.now.variables) pred.now gates.old).lit) }

    // Where a line states the predicate: for every choice of the free bits, and every store whose words the variables'
    // literals show, the literal shows the truth of the predicate.
    ensures value { IfOk result (λ lit. (k : ℕ) (l : Line) → slice_get ssa.now.lines k ≡ Some l → predicate_of l ≡ Some (Pred.Rng pred.now)
        → (free : List Bool) (store : List Word) → ShowsOperands gates.old free words.now ssa.now.variables store (range_atoms pred.now)
        → lit_bit gates.new free lit ≡ range_truth store pred.now) }
    ensures still_within { IfOk result (λ lit. lit / 2 ≤ length gates.new) }
    ensures longer { OnOk result (length gates.old ≤ length gates.new) }
    ensures part { OnErr result (IsPart gates.old gates.new (pred_lit words.now (types_of ssa.now.variables) pred.now gates.old).gates) }
{
    let _form = ssa.lines();
    let lit = range_pred(alloc, gates, words, ssa.variables(), pred)?;
    Ok(lit)
}
