//! Laws of combinations of equations. Each function does nothing; its clause is the law.

ghost use Rattle.tcl_poly.specs.Laws as laws;

/// A polynomial that equals a combination of equations has, at each point, the sum of the products' values as its value.
pub fn combination_values()
    ensures { laws.CombinationValues }
{}

/// Where every equation has the value 0, a polynomial that equals a combination of them has the value 0.
pub fn combination_vanishes()
    ensures { laws.CombinationVanishes }
{}
