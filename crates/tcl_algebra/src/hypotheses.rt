//! The equations of hypotheses.

ghost use Rattle.std.specs.Prelude.{◌≡◌, true, false, IfOk, OnOk, Some, ◌++◌, flat_map, map};
ghost use Rattle.std.specs.List.{list_all};
ghost use Rattle.tcl_ring.specs.Reduction as r;
ghost use Rattle.tcl_poly.specs.Polynomial as p;
ghost use Rattle.tcl_measure.specs.SoundModulus.{IsSound};
ghost use Rattle.tcl_lang.specs.declared.pred.Pred.TheVariants as pred_of;
ghost use Rattle.tcl_algebra.specs.Equations as equations;
ghost use Rattle.tcl_algebra.specs.Sound as sound;
ghost use Rattle.tcl_algebra.specs.Held.{IsAdded};

use crate::claim::{DEGREE_LIMIT, NORM_END, TERM_LIMIT, has_wide_modulus, sides};
use crate::lines::predicate_at;
use crate::multiple::less_multiple;
use crate::row::term_of;
use crate::rows::Rows;
use std::alloc::{AllocError, Global};
use tcl_goals::Hyp;
use tcl_lang::{AlgPred, Atom, CmpOp, Modulus, Pred, RngPred, RngTerm, Ssa};
use tcl_measure::{equation_degree, equation_norm, equation_terms, modulus_value};
use tcl_num::saturating_sum;
use tcl_poly::{Poly, is_wide};
use tcl_ring::Ring;
use tcl_term_poly::{difference, polynomial};

/// The value of a modulus that is not wide; 0 where there is none.
fn modulus_norm(modulus: &Option<Modulus>) -> u128
    requires sound { IsSound modulus.now }
    requires narrow { equations.has_wide_modulus modulus.now ≡ false }
    ensures { result ≡ equations.modulus_norm modulus.now }
{
    match modulus {
        None => 0,
        Some(parts) => modulus_value(parts.as_slice()),
    }
}

/// Whether the norm of an equation is too great for the ring, with that of its modulus.
fn is_great<R: Ring>(ring: &R, pred: &AlgPred) -> bool
    requires sound { IsSound pred.now.modulus }
    requires narrow { equations.has_wide_modulus pred.now.modulus ≡ false }
    ensures { result ≡ equations.is_great (R.modulus_of ring.now) pred.now }
{
    let sides = equation_norm(&pred.left, &pred.right);
    let modulus = modulus_norm(&pred.modulus);
    is_wide(ring, saturating_sum(sides, modulus, NORM_END))
}

/// Whether an algebraic hypothesis gives an equation: its modulus is not wide, and its norm over whole numbers, its degree
/// and its number of terms keep their bounds.
fn is_counted<R: Ring>(ring: &R, pred: &AlgPred) -> bool
    requires { IsSound pred.now.modulus }
    ensures { result ≡ equations.is_counted (R.modulus_of ring.now) pred.now }
{
    !has_wide_modulus(&pred.modulus)
        && !is_great(ring, pred)
        && equation_degree(&pred.left, &pred.right) <= DEGREE_LIMIT
        && equation_terms(&pred.left, &pred.right) <= TERM_LIMIT
}

/// The polynomial of an equation or a congruence that is counted.
fn equation<R: Ring>(
    alloc: Global,
    ring: &R,
    place: u32,
    pred: &AlgPred,
) -> Result<Poly<R>, AllocError>
    requires sound { IsSound pred.now.modulus }
    requires counted { equations.is_counted (R.modulus_of ring.now) pred.now ≡ true }
    ensures { IfOk result (λ x. p.terms_of (R.amount ring.now) x ≡ equations.equation_polynomial (r.reduced_by (R.modulus_of ring.now)) place pred.now pred.now.modulus) }
{
    let sides = sides(alloc, ring, pred)?;
    match &pred.modulus {
        None => Ok(sides),
        Some(parts) => {
            let modulus = modulus_value(parts.as_slice()) as i128;
            less_multiple(alloc, ring, sides, modulus, place)
        }
    }
}

/// Adds the equation of an algebraic hypothesis, where it gives one.
fn add_equation<R: Ring>(
    alloc: Global,
    ring: &R,
    place: u32,
    pred: &AlgPred,
    rows: &mut Rows<R>,
) -> Result<(), AllocError>
    requires { IsSound pred.now.modulus }
    ensures { OnOk result (IsAdded (R.amount ring.now) rows.old.list rows.new.list rows.old.places rows.new.places (equations.predicate_equations (R.modulus_of ring.now) place (Some (pred_of.Alg pred.now)))) }
{
    if is_counted(ring, pred) {
        let equation = equation(alloc, ring, place, pred)?;
        rows.push(place, equation)?;
    }
    Ok(())
}

/// The operand that a range term is, where it is one.
fn operand_of(term: &RngTerm) -> Option<Atom>
    ensures { result ≡ equations.operand_of term.now }
{
    match term {
        RngTerm::Leaf(atom) => Some(*atom),
        _ => None,
    }
}

/// Adds the conjuncts that are equalities of two operands.
fn add_equalities(pred: &RngPred, pairs: &mut Vec<(Atom, Atom)>) -> Result<(), AllocError>
    ensures { OnOk result (pairs.new.items ≡ pairs.old.items ++ equations.equalities_of pred.now) }
{
    match pred {
        RngPred::Cmp(op, left, right) => add_pair(*op, operand_of(left), operand_of(right), pairs),
        RngPred::Both(first, second) => {
            add_equalities(first.get(), pairs)?;
            add_equalities(second.get(), pairs)
        }
        _ => Ok(()),
    }
}

/// Adds two operands that are compared, where they are equal.
fn add_pair(
    op: CmpOp,
    left: Option<Atom>,
    right: Option<Atom>,
    pairs: &mut Vec<(Atom, Atom)>,
) -> Result<(), AllocError>
    ensures { OnOk result (pairs.new.items ≡ pairs.old.items ++ equations.pair_of op left right) }
{
    match (op, left, right) {
        (CmpOp::Eq, Some(left), Some(right)) => pairs.push((left, right))?,
        _ => (),
    }
    Ok(())
}

/// The difference of two operands.
fn equality<R: Ring>(
    alloc: Global,
    ring: &R,
    left: Atom,
    right: Atom,
) -> Result<Poly<R>, AllocError>
    requires { sound.are_small (left, right) ≡ true }
    ensures { IfOk result (λ x. p.terms_of (R.amount ring.now) x ≡ equations.equality_polynomial (r.reduced_by (R.modulus_of ring.now)) (left, right)) }
{
    let left = polynomial(alloc, ring, &term_of(left))?;
    let right = polynomial(alloc, ring, &term_of(right))?;
    difference(ring, left, &right)
}

/// Adds the equalities of pairs of operands.
fn add_pairs<R: Ring>(
    alloc: Global,
    ring: &R,
    place: u32,
    pairs: &[(Atom, Atom)],
    rows: &mut Rows<R>,
) -> Result<(), AllocError>
    requires { list_all sound.are_small pairs.now ≡ true }
    ensures { OnOk result (IsAdded (R.amount ring.now) rows.old.list rows.new.list rows.old.places rows.new.places (map (λ e. (place, equations.equality_polynomial (r.reduced_by (R.modulus_of ring.now)) e)) pairs.now)) }
{
    for k in 0..pairs.len() {
        let (left, right) = pairs[k];
        let equation = equality(alloc, ring, left, right)?;
        rows.push(place, equation)?;
    }
    Ok(())
}

/// Adds the equalities of a range hypothesis.
fn add_range<R: Ring>(
    alloc: Global,
    ring: &R,
    place: u32,
    pred: &RngPred,
    rows: &mut Rows<R>,
) -> Result<(), AllocError>
    requires { list_all sound.are_small (equations.equalities_of pred.now) ≡ true }
    ensures { OnOk result (IsAdded (R.amount ring.now) rows.old.list rows.new.list rows.old.places rows.new.places (equations.predicate_equations (R.modulus_of ring.now) place (Some (pred_of.Rng pred.now)))) }
{
    let mut pairs = Vec::new(alloc);
    add_equalities(pred, &mut pairs)?;
    add_pairs(alloc, ring, place, &pairs, rows)
}

/// Adds the equations of a hypothesis; a lemma gives none.
fn add_hyp<R: Ring>(
    alloc: Global,
    ring: &R,
    ssa: &Ssa,
    hyp: Hyp,
    rows: &mut Rows<R>,
) -> Result<(), AllocError>
    ensures { OnOk result (IsAdded (R.amount ring.now) rows.old.list rows.new.list rows.old.places rows.new.places (equations.hyp_equations (R.modulus_of ring.now) ssa.now hyp)) }
{
    match hyp {
        Hyp::Line(k) => match predicate_at(ssa, k as usize) {
            Some(Pred::Alg(pred)) => add_equation(alloc, ring, k, pred, rows),
            Some(Pred::Rng(pred)) => add_range(alloc, ring, k, pred, rows),
            None => Ok(()),
        },
        Hyp::Lemma(_) => Ok(()),
    }
}

/// Adds the equations of hypotheses in their order.
pub(crate) fn add_hyps<R: Ring>(
    alloc: Global,
    ring: &R,
    ssa: &Ssa,
    hyps: &[Hyp],
    rows: &mut Rows<R>,
) -> Result<(), AllocError>
    ensures { OnOk result (IsAdded (R.amount ring.now) rows.old.list rows.new.list rows.old.places rows.new.places (flat_map (equations.hyp_equations (R.modulus_of ring.now) ssa.now) hyps.now)) }
{
    for k in 0..hyps.len() {
        add_hyp(alloc, ring, ssa, hyps[k], rows)?;
    }
    Ok(())
}
