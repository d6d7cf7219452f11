// Facts by cases, after facts that were shown under numbers.

ghost use Rattle.std.specs.Prelude.{◌≡◌, ◌≤◌, ◌+◌, IfOk, OnOk};
ghost use Rattle.tcl_goals.specs.LemmaList.{next_number};
ghost use Rattle.tcl_kernel.specs.Evidence.{next_fact};

use crate::facts::{hyps_of, uses_of};
use crate::forms::{form_of_text, word_of};
use std::alloc::Global;
use std::process::Abort;
use std::test::Fail;
use tcl_goals::{BitClause, BitLit, Claim, Cube, Fact, Lemma, Lemmas};
use tcl_kernel::{Answer, Cert, EntryNumbers, Facts, check, facts_are_added};
use tcl_lang::Ssa;

// Its goals stand at the places 3 and 4. Its variables x, y and z have eight bits each.
const TEXT: &str =
    "in u8 x\nin u8 y\npre rng x < 100@u8 && y < 100@u8\nadd u8 z x y\ncut rng z < 200@u8\nend";

// A goal, the places of the hypotheses, the cube as bits `variable.bit=value`, and the places of the uses.
type Row = (u32, &'static [u32], &'static str, &'static [u32]);

// What is shown by enumeration, by number.
const EARLIER: &[Row] = &[
    (0, &[2], "0.7=1", &[]),
    (0, &[2], "0.7=0", &[]),
    (0, &[2], "", &[]),
    (0, &[2], "0.7=0 1.7=1", &[]),
    (0, &[2], "0.7=0 1.7=0", &[]),
    (1, &[2], "", &[3]),
    (
        1,
        &[2],
        "0.0=0 0.1=0 0.2=0 0.3=0 0.4=0 0.5=0 0.6=0 0.7=0 1.0=0 1.1=0 1.2=0 1.3=0 1.4=0 1.5=0 1.6=0 1.7=0 2.0=0 2.1=0 2.2=0 2.3=0 2.4=0 2.5=0",
        &[3],
    ),
    (1, &[2], "2.6=0", &[3]),
];

// A fact, the numbers of its items, and the answer.
const CASES: &[(Row, &[u32], &str)] = &[
    ((0, &[2], "", &[]), &[0, 1], "proof"),
    ((0, &[2], "", &[]), &[1, 0, 1], "proof"),
    ((0, &[2], "", &[]), &[0, 3, 4], "proof"),
    ((0, &[2], "", &[]), &[4, 3, 0], "proof"),
    ((0, &[2], "", &[]), &[2], "proof"),
    ((0, &[2], "", &[]), &[], "cases"),
    ((0, &[2], "", &[]), &[0], "cases"),
    ((0, &[2], "", &[]), &[0, 3], "cases"),
    ((0, &[2], "", &[]), &[0, 1, 8], "cases"),
    ((0, &[2], "0.7=1", &[]), &[0], "proof"),
    ((0, &[2], "0.7=1", &[]), &[0, 1], "cases"),
    ((0, &[2], "0.7=0", &[]), &[3, 4], "proof"),
    ((0, &[2], "0.7=0", &[]), &[3], "cases"),
    ((0, &[2], "0.6=1", &[]), &[0, 1], "proof"),
    ((0, &[], "", &[]), &[0, 1], "cases"),
    ((1, &[2], "", &[3]), &[0, 1], "cases"),
    ((1, &[2, 3], "", &[3]), &[5], "proof"),
    ((1, &[2], "", &[]), &[5], "cases"),
    ((1, &[2], "", &[3]), &[5, 6], "proof"),
    ((1, &[2], "", &[3]), &[5, 6, 7], "cases"),
    ((0, &[3], "", &[]), &[2], "order"),
];

// A literal in the form `variable.bit=value`.
fn literal_of(word: &str) -> Option<BitLit> {
    let (var, rest) = word.split_once('.')?;
    let (bit, value) = rest.split_once('=')?;
    Some(BitLit {
        var: var.parse().ok()?,
        bit: bit.parse().ok()?,
        value: value == "1",
    })
}

fn cube_of_text(alloc: Global, text: &str) -> Result<Cube, Fail> {
    let mut cube = Cube::new(alloc);
    for word in text.split_whitespace() {
        cube.push(literal_of(word).ok_or("no literal")?)?;
    }
    Ok(cube)
}

fn fact_of(alloc: Global, row: &Row) -> Result<Fact, Fail> {
    let (goal, hyps, cube, uses) = row;
    Ok(Fact {
        claim: Claim::Goal(*goal),
        hyps: hyps_of(alloc, hyps)?,
        cube: cube_of_text(alloc, cube)?,
        uses: uses_of(alloc, uses)?,
    })
}

// Shows a fact by enumeration, and adds it under the number.
fn add(alloc: Global, form: &Ssa, facts: &mut Facts, number: u32, fact: Fact) -> Result<(), Fail>
    requires program { facts.old.program ≡ form.now }
    requires lemmas { next_number facts.old.lemmas ≤ number }
    requires facts { next_fact facts.old.facts ≤ number }
    ensures program { OnOk result (facts.new.program ≡ form.now) }
    ensures lemmas { OnOk result (next_number facts.new.lemmas ≤ number + 1) }
    ensures facts { OnOk result (next_fact facts.new.facts ≤ number + 1) }
{
    facts_are_added();
    match check(alloc, form, facts, fact, Cert::Enumerated) {
        Answer::Proof(proof) => {
            facts.add(number, &proof)?;
            Ok(())
        }
        Answer::Bad(_) => Err("a fact that is not shown")?,
        Answer::Memory => Err("memory")?,
    }
}

// No fact of the program yet.
#[tactic(auto, unfolding(tcl_goals::specs::LemmaList::next_number, tcl_kernel::specs::Evidence::next_fact))]
fn no_facts(alloc: Global, form: &Ssa) -> Result<Facts, Fail>
    ensures program { IfOk result (λ facts. facts.program ≡ form.now) }
    ensures lemmas { IfOk result (λ facts. next_number facts.lemmas ≡ 0) }
    ensures facts { IfOk result (λ facts. next_fact facts.facts ≡ 0) }
{
    Ok(Facts::of(alloc, form, &Lemmas::new(alloc))?)
}

// The facts of the first table, each under its place in it.
fn earlier_facts(alloc: Global, form: &Ssa) -> Result<Facts, Fail>
    ensures { IfOk result (λ facts. facts.program ≡ form.now) }
{
    let mut facts = no_facts(alloc, form)?;
    for k in 0..EARLIER.len() {
        add(
            alloc,
            form,
            &mut facts,
            k as u32,
            fact_of(alloc, &EARLIER[k])?,
        )?;
    }
    Ok(facts)
}

fn items_of(alloc: Global, numbers: &[u32]) -> Result<EntryNumbers, Fail> {
    let mut items = EntryNumbers::new(alloc);
    for number in numbers {
        items.push(*number)?;
    }
    Ok(items)
}

#[test]
fn answers_on_cases(rt: HostRuntime) -> Result<(), Fail> {
    let alloc = rt.alloc();
    let form = form_of_text(alloc, TEXT)?;
    let earlier = earlier_facts(alloc, &form)?;
    for (row, numbers, expected) in CASES {
        let items = items_of(alloc, numbers)?;
        let answer = check(
            alloc,
            &form,
            &earlier,
            fact_of(alloc, row)?,
            Cert::Cases(items),
        );
        let word = word_of(&answer);
        assert!(&rt;
            word == *expected,
            "{row:?} by {numbers:?}: {word}, not {expected}"
        );
    }
    Ok(())
}

// The clause that the highest bit of x is 0, claimed at the level of the last goal.
fn lemma_fact(alloc: Global, cube: &str) -> Result<Fact, Fail> {
    let mut clause = BitClause::new(alloc);
    clause.push(literal_of("0.7=0").ok_or("no literal")?)?;
    Ok(Fact {
        claim: Claim::Lemma(Lemma { level: 1, clause }),
        hyps: hyps_of(alloc, &[2])?,
        cube: cube_of_text(alloc, cube)?,
        uses: uses_of(alloc, &[])?,
    })
}

// A lemma is one for later facts only where it is claimed under no cube.
#[test]
fn lemmas_are_added_without_cubes(rt: HostRuntime) -> Result<(), Fail> {
    let alloc = rt.alloc();
    let form = form_of_text(alloc, TEXT)?;
    let mut facts = no_facts(alloc, &form)?;
    add(alloc, &form, &mut facts, 3, lemma_fact(alloc, "1.0=0")?)?;
    assert!(&rt; facts.lemmas().items().is_empty(), "a lemma under a cube");
    add(alloc, &form, &mut facts, 4, lemma_fact(alloc, "")?)?;
    assert!(&rt; facts.lemmas().items().len() == 1, "a lemma under no cube");
    assert!(&rt; facts.facts().len() == 2, "two facts");
    Ok(())
}
