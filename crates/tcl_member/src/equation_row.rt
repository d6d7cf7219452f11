// The rows of equations: what plain reduction leaves of each.

ghost use Rattle.std.specs.Prelude.{◌≡◌, ℕ, ◌<◌, ◌≤◌, ◌^◌, ◌++◌, [], length, slice_index_or, false, pos, negsuc, IfOk, OnOk};
ghost use Rattle.std.specs.List.{AllByRecursion};
ghost use Rattle.tcl_ring.specs.Reduction as r;
ghost use Rattle.tcl_poly.specs.Polynomial as p;
ghost use Rattle.tcl_poly.specs.Combination.{equation_at};
ghost use Rattle.tcl_reduce.specs.Answer.{definitions_of, numbered};
ghost use Rattle.tcl_reduce.specs.Remainder.{pairs_of};
ghost use Rattle.tcl_reduce.specs.Reduction.{reduced_of};
ghost use Rattle.tcl_reduce.specs.CofactorSum as s;
ghost use Rattle.tcl_reduce.specs.Row as search;
ghost use Rattle.tcl_pivots.specs.CofactorLists.{equations_of};
ghost use Rattle.tcl_pivots.specs.Held.{rows_shown, AreHeld};
ghost use Rattle.tcl_member.specs.Fit.{AreKnown};
ghost use Rattle.tcl_member.specs.EquationRow.{AreBefore, AreHeldBy};

use std::alloc::{AllocError, Global};
use tcl_list::Listing;
use tcl_pivots::{Note, Row, Rows};
use tcl_poly::{Cofactor, Cofactors, Poly, PolyFault, is_zero, negated, number};
use tcl_reduce::{Defs, Plain, plain};
use tcl_ring::Ring;

/// Adds the row of the equation of that number, from a line's place. It is left out, with a note, where plain reduction has no
/// end within its bounds, or as other rows are.
pub(crate) fn add_equation<R: Ring>(
    alloc: Global,
    ring: &R,
    defs: &Defs<R>,
    equations: &[Poly<R>],
    number: usize,
    place: u32,
    rows: &mut Rows<R>,
) -> Result<(), AllocError>
    requires known { AreKnown (R.modulus_of ring.now) (R.amount ring.now) defs.now equations.now }
    requires number { number < length equations.now }
    requires after { length defs.now ≤ number }
    requires held { AreHeld (R.modulus_of ring.now) (equations_of (R.amount ring.now) equations.now) (R.amount ring.now) rows.old }
    ensures added { OnOk result (rows_shown (R.amount ring.now) rows.new
        ≡ search.add_plain (R.modulus_of ring.now) (equations_of (R.amount ring.now) equations.now) number place (reduced_of (R.modulus_of ring.now) (definitions_of (R.amount ring.now) defs.now) (equation_at (equations_of (R.amount ring.now) equations.now) number)) (rows_shown (R.amount ring.now) rows.old)) }
    ensures held { OnOk result (AreHeld (R.modulus_of ring.now) (equations_of (R.amount ring.now) equations.now) (R.amount ring.now) rows.new) }
{
    let equation: &Poly<R> = &equations[number];
    match plain(alloc, ring, defs, equation) {
        Plain::Zero(_, _) => Ok(()),
        Plain::Rest(rest, cofactors, _) => {
            let cofactors = row_cofactors(alloc, ring, cofactors.as_slice(), number as u32)?;
            let row = Row {
                poly: rest,
                cofactors,
                place,
            };
            rows.add_row(alloc, ring, equations, row)
        }
        Plain::Wide(_) => rows.push_note(Note::Wide(place)),
        Plain::Large(_, _) => rows.push_note(Note::Wide(place)),
        Plain::Memory => Err(AllocError),
    }
}

/// The cofactors of the row of the equation of that number: the opposites of those of plain reduction, and 1 for the equation
/// itself.
fn row_cofactors<R: Ring>(
    alloc: Global,
    ring: &R,
    cofactors: &[Cofactor<R>],
    number: u32,
) -> Result<Cofactors<R>, AllocError>
    requires before { AreBefore number (numbered cofactors.now) }
    requires held { AreHeldBy (R.modulus_of ring.now) (R.amount ring.now) (numbered cofactors.now) }
    ensures { IfOk result (λ cs. pairs_of (R.amount ring.now) (numbered cs)
        ≡ s.put_cofactor (r.reduced_by (R.modulus_of ring.now)) (number, p.number_of (r.reduced_by (R.modulus_of ring.now)) (pos 1)) (s.scaled_cofactors (r.reduced_by (R.modulus_of ring.now)) ([], negsuc 0) (pairs_of (R.amount ring.now) (numbered cofactors.now)))) }
{
    let mut opposites = Vec::new(alloc);
    for cofactor in cofactors {
        let cofactor: &Cofactor<R> = cofactor;
        let opposite = negated(ring, &cofactor.poly)?;
        push_some(ring, &mut opposites, cofactor.equation, opposite)?;
    }
    let own = one(alloc, ring)?;
    push_some(ring, &mut opposites, number, own)?;
    Ok(Listing::from_vec(opposites))
}

/// The constant 1.
fn one<R: Ring>(alloc: Global, ring: &R) -> Result<Poly<R>, AllocError>
    ensures { IfOk result (λ c. p.terms_of (R.amount ring.now) c ≡ p.number_of (r.reduced_by (R.modulus_of ring.now)) (pos 1)) }
{
    match number(alloc, ring, 1) {
        Ok(one) => Ok(one),
        Err(PolyFault::Wide) => unreachable!(),
        Err(PolyFault::Memory) => Err(AllocError),
    }
}

/// Adds the cofactor at the end, unless it is 0.
pub(crate) fn push_some<R: Ring>(
    ring: &R,
    cofactors: &mut Vec<Cofactor<R>>,
    equation: u32,
    poly: Poly<R>,
) -> Result<(), AllocError>
    ensures { OnOk result (pairs_of (R.amount ring.now) (numbered cofactors.new.items) ≡ pairs_of (R.amount ring.now) (numbered cofactors.old.items) ++ s.front_cofactor equation (p.terms_of (R.amount ring.now) poly) []) }
{
    if is_zero(&poly) {
        return Ok(());
    }
    cofactors.push(Cofactor { equation, poly })?;
    Ok(())
}
