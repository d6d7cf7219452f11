//! Laws of rows and of the membership search. Each function does nothing; its clause is the law.

ghost use Rattle.tcl_pivots.specs.RowLaws as laws;

/// A combination of rows that has none of their leading monomials is zero.
pub fn rows_vanish()
    ensures { laws.RowsVanish }
{}

/// Without a note the kept rows have the same combinations as the plain remainders of the equations.
pub fn rows_span()
    ensures { laws.RowsSpan }
{}

/// What a membership search leaves open without a note is no combination of what was tried.
pub fn open_is_apart()
    ensures { laws.OpenIsApart }
{}

/// Cofactors that a membership search finds show the claim to the exact comparison.
pub fn cofactors_show()
    ensures { laws.CofactorsShow }
{}
