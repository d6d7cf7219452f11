// What a search begins with: the rows of the equations.

ghost use Rattle.std.specs.Prelude.{◌≡◌, ℕ, ◌≤◌, [], length, IfOk};
ghost use Rattle.tcl_reduce.specs.Answer.{definitions_of};
ghost use Rattle.tcl_reduce.specs.Row as s;
ghost use Rattle.tcl_pivots.specs.CofactorLists.{equations_of};
ghost use Rattle.tcl_pivots.specs.Held.{rows_shown, AreHeld};
ghost use Rattle.tcl_member.specs.Fit.{AreKnown};

use crate::equation_row::add_equation;
use std::alloc::{AllocError, Global};
use tcl_pivots::{Pivot, Row, Rows};
use tcl_poly::Poly;
use tcl_reduce::{Defs, Equations};
use tcl_ring::Ring;

/// The rows of the equations after the definitions, each reduced by those before it. The list is that of the equations, which
/// have the places.
pub(crate) fn rows_of<R: Ring + Copy>(
    alloc: Global,
    ring: &R,
    defs: &Defs<R>,
    list: &[Poly<R>],
    equations: &Equations<R>,
) -> Result<Rows<R>, AllocError>
    requires known { AreKnown (R.modulus_of ring.now) (R.amount ring.now) defs.now list.now }
    requires list { list.now ≡ equations.now.list }
    ensures rows { IfOk result (λ rows. rows_shown (R.amount ring.now) rows
        ≡ s.rows_of (R.modulus_of ring.now) (definitions_of (R.amount ring.now) defs.now) (equations_of (R.amount ring.now) list.now) equations.now.places) }
    ensures held { IfOk result (λ rows. AreHeld (R.modulus_of ring.now) (equations_of (R.amount ring.now) list.now) (R.amount ring.now) rows) }
{
    let mut rows = Rows::new(alloc);
    let first = defs.len();
    let count = list.len();
    for number in first..count {
        let place = equations.place(number);
        add_equation(alloc, ring, defs, list, number, place, &mut rows)?;
    }
    Ok(rows)
}

/// Copies of kept rows, as they are before the first product: these alone are multiplied.
pub(crate) fn copy_pivots<R: Ring>(
    alloc: Global,
    kept: &[Pivot<R>],
) -> Result<Vec<Pivot<R>>, AllocError>
    ensures { IfOk result (λ copy. copy.items ≡ kept.now) }
{
    let mut pivots = Vec::new(alloc);
    for pivot in kept {
        pivots.push(copy_pivot(pivot)?)?;
    }
    Ok(pivots)
}

fn copy_pivot<R: Ring>(pivot: &Pivot<R>) -> Result<Pivot<R>, AllocError>
    ensures { IfOk result (λ copy. copy ≡ pivot.now) }
{
    let poly = pivot.row.poly.copy()?;
    let cofactors = pivot.row.cofactors.copy()?;
    Ok(Pivot {
        row: Row {
            poly,
            cofactors,
            place: pivot.row.place,
        },
        inverse: pivot.inverse,
    })
}
