//! The certificate by cases.

ghost use Rattle.std.specs.Prelude.{◌≡◌, All, None, IfOk, map, option_copied};
ghost use Rattle.std.specs.List.{list_all, list_any};
ghost use Rattle.tcl_goals.specs.Holds.{FactHolds};
ghost use Rattle.tcl_goals.specs.Order.{InOrder};
ghost use Rattle.tcl_cubes.specs.Covering as covering;
ghost use Rattle.tcl_kernel.specs.CasesCertificate as words;

use crate::facts::{Facts, NumberedFact};
use crate::reason::Reason;
use std::alloc::{AllocError, Global};
use tcl_cubes::{are_covering, names_at_most};
use tcl_goals::{BitLit, Claim, Cube, Fact, Hyp};
use tcl_list::{Listing, Same};

/// The most different bits that the cubes of the items name.
const MOST_BITS: u32 = 22;

/// The reason against the certificate. That an item is no such fact is asked first, then how many bits the cubes name, then
/// whether they cover. The only error is that memory has run out.
#[tactic(auto, unfolding(crate::specs::CasesCertificate::cases_reason))]
pub(crate) fn cases_reason(
    alloc: Global,
    earlier: &Facts,
    fact: &Fact,
    items: &[u32],
) -> Result<Option<Reason>, AllocError>
    requires { InOrder earlier.now.program earlier.now.lemmas fact.now }
    ensures reason { IfOk result (λ r. r ≡ words.cases_reason earlier.now.facts fact.now items.now) }
    ensures holds { IfOk result (λ r. r ≡ None → FactHolds earlier.now.program earlier.now.lemmas fact.now) }
{
    let facts = earlier.facts();
    if are_cases(alloc, facts.as_slice(), fact, items)? {
        Ok(None)
    } else {
        Ok(Some(Reason::Cases))
    }
}

/// Whether the items are cases of the fact whose cubes, of few bits, cover its own. The only error is that memory has run out.
fn are_cases(
    alloc: Global,
    facts: &[NumberedFact],
    fact: &Fact,
    items: &[u32],
) -> Result<bool, AllocError>
    ensures { IfOk result (λ b. b ≡ words.are_cases facts.now fact.now items.now) }
{
    if !are_earlier(facts, fact, items) {
        return Ok(false);
    }
    let cubes = cubes_of(alloc, facts, items)?;
    Ok(
        names_at_most(alloc, &cubes, MOST_BITS as usize)?
            && are_covering(alloc, fact.cube.as_slice(), &cubes, MOST_BITS)?,
    )
}

/// Whether each of the items is a case of the fact.
fn are_earlier(facts: &[NumberedFact], fact: &Fact, items: &[u32]) -> bool
    ensures { result ≡ list_all (words.is_case facts.now fact.now) items.now }
{
    items.iter().all(|number| is_case(facts, fact, *number))
}

/// The earlier fact of a number.
#[tactic(auto, unfolding(crate::specs::CasesCertificate::fact_of))]
fn fact_of(facts: &[NumberedFact], number: u32) -> Option<&Fact>
    ensures { option_copied result ≡ words.fact_of facts.now number }
{
    for k in 0..facts.len() {
        if facts[k].number == number {
            return Some(&facts[k].fact);
        }
    }
    None
}

/// Whether the earlier fact of a number is a case of the fact.
fn is_case(facts: &[NumberedFact], fact: &Fact, number: u32) -> bool
    ensures { result ≡ words.is_case facts.now fact.now number }
{
    match fact_of(facts, number) {
        Some(item) => same_claim(&item.claim, &fact.claim) && is_part(fact, item),
        None => false,
    }
}

/// Whether the claims are the same.
fn same_claim(a: &Claim, b: &Claim) -> bool
    ensures { result ≡ words.same_claim a.now b.now }
{
    a.same(b)
}

/// Whether the item has no hypotheses and no uses but those of the fact, and its cube agrees.
fn is_part(fact: &Fact, item: &Fact) -> bool
    ensures { result ≡ words.is_part fact.now item.now }
{
    have_hyps(fact.hyps.as_slice(), item.hyps.as_slice())
        && have_uses(fact.uses.as_slice(), item.uses.as_slice())
        && are_agreed(fact.cube.as_slice(), item.cube.as_slice())
}

/// Whether all these hypotheses are among those.
fn have_hyps(all: &[Hyp], hyps: &[Hyp]) -> bool
    ensures { result ≡ list_all (words.has_hyp all.now) hyps.now }
{
    hyps.iter().all(|hyp| has_hyp(all, hyp))
}

/// Whether all these places are among those.
fn have_uses(all: &[u32], uses: &[u32]) -> bool
    ensures { result ≡ list_all (words.has_use all.now) uses.now }
{
    uses.iter().all(|place| has_use(all, *place))
}

/// Whether none of the literals gives a bit of the cube another value.
fn are_agreed(cube: &[BitLit], literals: &[BitLit]) -> bool
    ensures { result ≡ list_all (words.is_agreed cube.now) literals.now }
{
    literals.iter().all(|literal| is_agreed(cube, literal))
}

/// Whether the hypothesis is among these.
fn has_hyp(all: &[Hyp], hyp: &Hyp) -> bool
    ensures { result ≡ words.has_hyp all.now hyp.now }
{
    all.iter().any(|other| same_hyp(hyp, other))
}

/// Whether the hypotheses are the same.
fn same_hyp(a: &Hyp, b: &Hyp) -> bool
    ensures { result ≡ words.same_hyp a.now b.now }
{
    match (a, b) {
        (Hyp::Line(ours), Hyp::Line(theirs)) => *ours == *theirs,
        (Hyp::Lemma(ours), Hyp::Lemma(theirs)) => *ours == *theirs,
        _ => false,
    }
}

/// Whether the place is among these.
fn has_use(all: &[u32], place: u32) -> bool
    ensures { result ≡ words.has_use all.now place }
{
    all.iter().any(|other| *other == place)
}

/// Whether the literal does not give a bit of the cube another value.
fn is_agreed(cube: &[BitLit], literal: &BitLit) -> bool
    ensures { result ≡ words.is_agreed cube.now literal.now }
{
    !is_contradicted(cube, literal)
}

/// Whether the literal gives a bit of the cube another value.
fn is_contradicted(cube: &[BitLit], literal: &BitLit) -> bool
    ensures { result ≡ list_any (covering.contradicts literal.now) cube.now }
{
    cube.iter().any(|other| contradicts(literal, other))
}

/// Whether the literals are of the same bit, with different values.
fn contradicts(a: &BitLit, b: &BitLit) -> bool
    ensures { result ≡ covering.contradicts a.now b.now }
{
    a.var == b.var && a.bit == b.bit && a.value != b.value
}

/// The cubes of the items. The only error is that memory has run out.
fn cubes_of(alloc: Global, facts: &[NumberedFact], items: &[u32]) -> Result<Vec<Cube>, AllocError>
    ensures { IfOk result (λ cubes. cubes.items ≡ words.cubes_of facts.now items.now) }
{
    let mut cubes = Vec::new(alloc);
    for k in 0..items.len() {
        cubes.push(cube_of(alloc, facts, items[k])?)?;
    }
    Ok(cubes)
}

/// The cube of the earlier fact of a number; the empty cube where there is none. The only error is that memory has run out.
fn cube_of(alloc: Global, facts: &[NumberedFact], number: u32) -> Result<Cube, AllocError>
    ensures { IfOk result (λ cube. cube ≡ words.cube_of facts.now number) }
{
    match fact_of(facts, number) {
        Some(item) => item.cube.copy(),
        None => Ok(Listing::new(alloc)),
    }
}
