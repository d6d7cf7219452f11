//! How great a claim's equation is, and the polynomial of an equation.

ghost use Rattle.std.specs.Prelude.{◌≡◌, ◌≤◌, ◌+◌, false, max, option_copied, IfSome, IfOk};
ghost use Rattle.tcl_ring.specs.Reduction as r;
ghost use Rattle.tcl_poly.specs.Polynomial as p;
ghost use Rattle.tcl_lang.specs.Bound as bound;
ghost use Rattle.tcl_measure.specs.SoundModulus.{IsSound};
ghost use Rattle.tcl_algebra.specs.Equations as equations;
ghost use Rattle.tcl_algebra.specs.Ends as ends;
ghost use Rattle.tcl_algebra.specs.Ends.{IsBegun};

use crate::AlgebraEnd;
use crate::lines::predicate_at;
use std::alloc::{AllocError, Global};
use tcl_goals::{Claim, goal_place};
use tcl_lang::{AlgPred, Modulus, Pred, Ssa};
use tcl_measure::{equation_degree, equation_norm, equation_terms, is_wide_modulus, modulus_value};
use tcl_poly::Poly;
use tcl_port::What;
use tcl_ring::Ring;
use tcl_term_poly::{difference, polynomial};

/// The norm from which on whole numbers are too great.
pub(crate) const NORM_END: u128 = 1 << 127;

/// The greatest degree bound of an equation.
pub(crate) const DEGREE_LIMIT: u32 = 1024;

/// The greatest bound of an equation's terms.
pub(crate) const TERM_LIMIT: u32 = 65536;

/// The equation that the line of a claim's goal states, where it states one.
pub fn claim_equation<'a>(ssa: &'a Ssa, claim: &Claim) -> Option<&'a AlgPred>
    ensures equation { option_copied result ≡ ends.claim_equation ssa.now claim.now }
    ensures sound { IfSome result (λ f. IsSound f.now.modulus) }
{
    match claim {
        Claim::Goal(goal) => match predicate_at(ssa, goal_place(ssa.lines().as_slice(), *goal))? {
            Pred::Alg(pred) => Some(pred),
            Pred::Rng(_) => None,
        },
        Claim::Lemma(_) => None,
    }
}

/// Whether there is a modulus that is wide.
pub fn has_wide_modulus(modulus: &Option<Modulus>) -> bool
    requires { IsSound modulus.now }
    ensures { result ≡ equations.has_wide_modulus modulus.now }
{
    match modulus {
        None => false,
        Some(parts) => is_wide_modulus(parts.as_slice()),
    }
}

/// The modulus of the ring of a claim whose modulus is not wide; none for whole numbers.
pub fn claim_modulus(claim: &AlgPred) -> Option<u128>
    requires sound { IsSound claim.now.modulus }
    requires narrow { equations.has_wide_modulus claim.now.modulus ≡ false }
    ensures modulus { result ≡ equations.modulus_of claim.now.modulus }
    ensures ring { r.IsModulus result }
{
    match &claim.modulus {
        None => None,
        Some(parts) => Some(modulus_value(parts.as_slice())),
    }
}

/// Whether the claim is wide.
fn is_wide_claim(claim: &AlgPred) -> bool
    requires { IsSound claim.now.modulus }
    ensures { result ≡ equations.is_wide_claim claim.now claim.now.modulus }
{
    match &claim.modulus {
        None => NORM_END <= equation_norm(&claim.left, &claim.right),
        Some(parts) => is_wide_modulus(parts.as_slice()),
    }
}

/// Whether the claim is neither wide nor large. Width is looked for first, then the degree, then the terms.
pub(crate) fn begin(claim: &AlgPred) -> Result<(), AlgebraEnd>
    requires { IsSound claim.now.modulus }
    ensures { IsBegun result (equations.claim_begins claim.now) }
{
    if is_wide_claim(claim) {
        return Err(AlgebraEnd::Wide);
    }
    let degree = equation_degree(&claim.left, &claim.right);
    if DEGREE_LIMIT < degree {
        return Err(AlgebraEnd::Large(What::Degree, degree));
    }
    let terms = equation_terms(&claim.left, &claim.right);
    if TERM_LIMIT < terms {
        return Err(AlgebraEnd::Large(What::Terms, terms));
    }
    Ok(())
}

/// The difference of the two sides of an equation.
pub(crate) fn sides<R: Ring>(alloc: Global, ring: &R, pred: &AlgPred) -> Result<Poly<R>, AllocError>
    requires degree { max (bound.degree_of pred.now.left) (bound.degree_of pred.now.right) ≤ 1024 }
    requires fits { r.is_wide (R.modulus_of ring.now) (bound.norm_of pred.now.left + bound.norm_of pred.now.right) ≡ false }
    ensures polynomial { IfOk result (λ x. p.terms_of (R.amount ring.now) x ≡ equations.claim_polynomial (r.reduced_by (R.modulus_of ring.now)) pred.now) }
    ensures over { IfOk result (λ x. p.IsOver (R.modulus_of ring.now) (R.amount ring.now) x) }
{
    let left = polynomial(alloc, ring, &pred.left)?;
    let right = polynomial(alloc, ring, &pred.right)?;
    difference(ring, left, &right)
}
