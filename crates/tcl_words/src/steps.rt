// Instructions as gates: operands are looked up, and the literals of results are set.

ghost use Rattle.std.specs.Prelude.{◌≡◌, ℕ, ◌/◌, ◌≤◌, ◌<◌, IfOk, OnOk, OnErr, length, slice_get, Some};
ghost use Rattle.tcl_gates.specs.Meaning.{AreWithin, IsPart};
ghost use Rattle.tcl_words.specs.Listed.{listed};
ghost use Rattle.tcl_words.specs.Ranges.{AllWithin};
ghost use Rattle.tcl_words.specs.Steps.{operand_lits, first_type, instruction_lits, condition_wire, set_at, set_words, words_after};

use crate::conditions::condition_lit;
use crate::operands::operand_at;
use crate::results::{ResultWords, result_words};
use crate::words::Words;
use std::alloc::{AllocError, Global};
use tcl_circuits::Lits;
use tcl_cnf::Lit;
use tcl_gates::Gates;
use tcl_lang::{Instr, Op, Outs, Variables};

/// The words of an instruction's results.
pub(crate) fn instruction_words(
    alloc: Global,
    gates: &mut Gates,
    words: &Words,
    variables: &Variables,
    i: &Instr,
) -> Result<ResultWords, AllocError>
    requires within { AllWithin (length gates.old) words.now }
    requires narrow { length (operand_lits words.now i.now.args 0) ≤ 64 }
    ensures made { OnOk result (gates.new ≡ (instruction_lits gates.old words.now variables.now i.now).gates) }
    ensures words { IfOk result (λ results. listed results ≡ (instruction_lits gates.old words.now variables.now i.now).words) }
    ensures part { OnErr result (IsPart gates.old gates.new (instruction_lits gates.old words.now variables.now i.now).gates) }
{
    let a = operand_at(alloc, gates, words, variables, &i.args, 0)?;
    let b = operand_at(alloc, gates, words, variables, &i.args, 1)?;
    let c = operand_at(alloc, gates, words, variables, &i.args, 2)?;
    let results = result_words(
        alloc, gates, i.op, i.ty, a.ty, i.amount, &a.word, &b.word, &c.word,
    )?;
    Ok(results)
}

/// Gives the results of an instruction their literals; a `nondet` changes nothing.
#[tactic(auto, using(tcl_gates::proofs::Shown::part_none, tcl_gates::proofs::Shown::begins_same, crate::proofs::CallFacts::words_made, crate::proofs::CallFacts::nondet_gates, crate::proofs::CallFacts::nondet_words, crate::proofs::CallFacts::step_within, crate::proofs::CallFacts::step_longer, crate::proofs::CallFacts::part_longer, crate::proofs::Parts::all_within_grown))]
pub(crate) fn set_instruction(
    alloc: Global,
    gates: &mut Gates,
    words: &mut Words,
    variables: &Variables,
    i: &Instr,
) -> Result<(), AllocError>
    requires within { AllWithin (length gates.old) words.old }
    requires narrow { length (operand_lits words.old i.now.args 0) ≤ 64 }
    requires room { (j v : ℕ) → slice_get i.now.outs j ≡ Some v → v < length words.old }
    ensures made { OnOk result (gates.new ≡ (instruction_lits gates.old words.old variables.now i.now).gates) }
    ensures set { OnOk result (words.new ≡ words_after i.now.op words.old i.now.outs (instruction_lits gates.old words.old variables.now i.now).words) }
    ensures still_within { AllWithin (length gates.new) words.new }
    ensures longer { length gates.old ≤ length gates.new }
    ensures part { OnErr result (IsPart gates.old gates.new (instruction_lits gates.old words.old variables.now i.now).gates) }
    ensures unchanged { OnErr result (words.new ≡ words.old) }
{
    if i.op == Op::Nondet {
        return Ok(());
    }
    let results = instruction_words(alloc, gates, words, variables, i)?;
    set_results(words, &i.outs, results);
    Ok(())
}

/// The literal of an instruction's exactness condition.
#[tactic(auto, using(crate::proofs::CallFacts::condition_longer, crate::proofs::CallFacts::part_longer))]
pub(crate) fn instruction_condition(
    alloc: Global,
    gates: &mut Gates,
    words: &Words,
    variables: &Variables,
    i: &Instr,
) -> Result<Lit, AllocError>
    requires within { AllWithin (length gates.old) words.now }
    requires narrow { length (operand_lits words.now i.now.args 0) ≤ 64 }
    requires small { i.now.ty.width ≤ 64 }
    requires shift { i.now.amount ≤ 64 }
    ensures made { OnOk result (gates.new ≡ (condition_wire gates.old words.now variables.now i.now).gates) }
    ensures lit { IfOk result (λ lit. lit ≡ (condition_wire gates.old words.now variables.now i.now).lit) }
    ensures still_within { IfOk result (λ lit. lit / 2 ≤ length gates.new) }
    ensures longer { length gates.old ≤ length gates.new }
    ensures part { OnErr result (IsPart gates.old gates.new (condition_wire gates.old words.now variables.now i.now).gates) }
{
    let a = operand_at(alloc, gates, words, variables, &i.args, 0)?;
    let b = operand_at(alloc, gates, words, variables, &i.args, 1)?;
    let c = operand_at(alloc, gates, words, variables, &i.args, 2)?;
    let lit = condition_lit(
        alloc, gates, i.op, i.ty, a.ty, i.amount, &a.word, &b.word, &c.word,
    )?;
    Ok(lit)
}

/// Sets the word of result k, if there is such a result.
#[tactic(auto, using(crate::proofs::Parts::set_there, crate::proofs::Parts::set_nowhere))]
fn set_result(words: &mut Words, outs: &Outs, k: usize, word: Lits)
    requires { (j v : ℕ) → slice_get outs.now j ≡ Some v → v < length words.old }
    ensures set { words.new ≡ set_at words.old (slice_get outs.now k) word }
    ensures count { length words.new ≡ length words.old }
{
    if k < outs.len() {
        words.set(*outs.at(k) as usize, word);
    }
}

/// Sets the words of results, from left to right.
#[tactic(auto, using(crate::proofs::Parts::set_one, crate::proofs::Parts::set_two))]
pub(crate) fn set_results(words: &mut Words, outs: &Outs, results: ResultWords)
    requires { (j v : ℕ) → slice_get outs.now j ≡ Some v → v < length words.old }
    ensures { words.new ≡ set_words words.old outs.now (listed results) }
{
    match results {
        ResultWords::One(word) => set_result(words, outs, 0, word),
        ResultWords::Two(first, second) => {
            set_result(words, outs, 0, first);
            set_result(words, outs, 1, second);
        }
    }
}
