//! Laws of the definitions of plain reduction. Each function does nothing; its clause is the law.

ghost use Rattle.tcl_reduce.specs.Laws as laws;

/// A polynomial is the sum of its coefficients by the powers of an unknown, times these powers.
pub fn parts_make()
    ensures { laws.PartsMake }
{}

/// The quotient of a definition's power times its equation is the difference of the powers.
pub fn quotients_divide()
    ensures { laws.QuotientsDivide }
{}

/// A reduction that is neither wide nor large keeps the polynomial, and the exact comparison can show it.
pub fn reductions_keep()
    ensures { laws.ReductionsKeep }
{}
