//! The certificate by cofactors.

ghost use Rattle.std.specs.Prelude.{◌≡◌, map, None, Some, IfOk};
ghost use Rattle.tcl_poly.specs.Polynomial as polynomials;
ghost use Rattle.tcl_poly.specs.Combination.{AreOver};
ghost use Rattle.tcl_lang.specs.declared.term.AlgPred as declared;
ghost use Rattle.tcl_measure.specs.SoundModulus.{IsSound};
ghost use Rattle.tcl_goals.specs.Holds.{FactHolds};
ghost use Rattle.tcl_goals.specs.Order.{InOrder};
ghost use Rattle.tcl_algebra.specs.Ends as ends;
ghost use Rattle.tcl_algebra.specs.Equations as words;
ghost use Rattle.tcl_kernel.specs.CofactorCertificate as cofactors;

use crate::reason::Reason;
use std::alloc::{AllocError, Global};
use tcl_algebra::{AlgebraEnd, claim_equation, claim_modulus, equations, has_wide_modulus};
use tcl_cofactor::{CofactorAnswer, check_cofactors};
use tcl_goals::{Fact, Lemmas};
use tcl_lang::{AlgPred, Ssa};
use tcl_poly::Poly;
use tcl_remainder::{CofactorLines, are_fitting, cofactors_of};
use tcl_ring::{Residue, Ring, Whole};

/// The reason against the certificate. The claim is looked at first, then the numbers of the equations and the degrees, then
/// the norms, and the sum of the products last. The only error is that memory has run out.
pub(crate) fn cofactor_reason(
    alloc: Global,
    ssa: &Ssa,
    lemmas: &Lemmas,
    fact: &Fact,
    lines: &CofactorLines,
) -> Result<Option<Reason>, AllocError>
    requires { InOrder ssa.now lemmas.now.items fact.now }
    ensures reason { IfOk result (λ r. r ≡ cofactors.cofactor_reason ssa.now lemmas.now.items fact.now lines.now) }
    ensures holds { IfOk result (λ r. r ≡ None → FactHolds ssa.now lemmas.now.items fact.now) }
{
    let _form = ssa.lines();
    let reason = reason_of_claim(alloc, ssa, lemmas, fact, lines)?;
    Ok(reason)
}

/// The same without what it shows.
fn reason_of_claim(
    alloc: Global,
    ssa: &Ssa,
    lemmas: &Lemmas,
    fact: &Fact,
    lines: &CofactorLines,
) -> Result<Option<Reason>, AllocError>
    requires { InOrder ssa.now lemmas.now.items fact.now }
    ensures { IfOk result (λ r. r ≡ cofactors.cofactor_reason ssa.now lemmas.now.items fact.now lines.now) }
{
    match claim_equation(ssa, &fact.claim) {
        Some(claim) => reason_in_ring(alloc, ssa, lemmas, fact, lines, claim),
        None => Ok(Some(Reason::Cofactors)),
    }
}

/// The same for a claim that is this equation.
fn reason_in_ring(
    alloc: Global,
    ssa: &Ssa,
    lemmas: &Lemmas,
    fact: &Fact,
    lines: &CofactorLines,
    claim: &AlgPred,
) -> Result<Option<Reason>, AllocError>
    requires order { InOrder ssa.now lemmas.now.items fact.now }
    requires claim { ends.claim_equation ssa.now fact.now.claim ≡ Some claim.now }
    requires sound { IsSound claim.now.modulus }
    ensures { IfOk result (λ r. r ≡ cofactors.cofactor_reason ssa.now lemmas.now.items fact.now lines.now) }
{
    if has_wide_modulus(&claim.modulus) {
        return Ok(Some(Reason::Cofactors));
    }
    match claim_modulus(claim) {
        Some(modulus) => compared(alloc, &Residue { modulus }, ssa, lemmas, fact, lines, claim),
        None => compared(alloc, &Whole, ssa, lemmas, fact, lines, claim),
    }
}

/// The same in the ring of the claim.
fn compared<R: Ring + Copy>(
    alloc: Global,
    ring: &R,
    ssa: &Ssa,
    lemmas: &Lemmas,
    fact: &Fact,
    lines: &CofactorLines,
    claim: &AlgPred,
) -> Result<Option<Reason>, AllocError>
    requires order { InOrder ssa.now lemmas.now.items fact.now }
    requires claim { ends.claim_equation ssa.now fact.now.claim ≡ Some claim.now }
    requires ring { R.modulus_of ring.now ≡ words.modulus_of claim.now.modulus }
    ensures { IfOk result (λ r. r ≡ cofactors.cofactor_reason ssa.now lemmas.now.items fact.now lines.now) }
{
    match equations(alloc, ring, ssa, lemmas, fact) {
        Ok(equations) => {
            let reason = combined(alloc, ring, equations.list(), equations.claim(), lines)?;
            Ok(reason)
        }
        Err(AlgebraEnd::Wide) => Ok(Some(Reason::Cofactors)),
        Err(AlgebraEnd::Large(_, _)) => Ok(Some(Reason::Cofactors)),
        Err(AlgebraEnd::Memory) => Err(AllocError),
    }
}

/// The reason of the lines over these equations, for this polynomial of the claim.
fn combined<R: Ring>(
    alloc: Global,
    ring: &R,
    equations: &[Poly<R>],
    claim: &Poly<R>,
    lines: &CofactorLines,
) -> Result<Option<Reason>, AllocError>
    requires over { AreOver (R.modulus_of ring.now) (R.amount ring.now) equations.now }
    requires claim { polynomials.IsOver (R.modulus_of ring.now) (R.amount ring.now) claim.now }
    ensures { IfOk result (λ r. (f : declared.AlgPred) → R.modulus_of ring.now ≡ words.modulus_of f.modulus →
        polynomials.terms_of (R.amount ring.now) claim.now ≡ words.claim_polynomial (cofactors.ring_of f) f →
        r ≡ cofactors.line_reason f (map (polynomials.terms_of (R.amount ring.now)) equations.now) lines.now) }
{
    if !are_fitting(ring, equations, lines) {
        return Ok(Some(Reason::Cofactors));
    }
    let cofactors = cofactors_of(alloc, ring, lines)?;
    match check_cofactors(alloc, ring, equations, claim, &cofactors) {
        CofactorAnswer::Equal => Ok(None),
        CofactorAnswer::Differs(_) => Ok(Some(Reason::Cofactors)),
        CofactorAnswer::Wide => Ok(Some(Reason::Wide)),
        CofactorAnswer::Memory => Err(AllocError),
    }
}
