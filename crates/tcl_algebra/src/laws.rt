//! Laws of the definitions. Each function does nothing; its clause is the law.

ghost use Rattle.tcl_algebra.specs.Laws as laws;

/// In an assignment that meets the hypotheses every equation is 0, for some values of the unknowns of lines. A claim whose
/// polynomial is a combination of the equations holds in every assignment.
pub fn equations_hold()
    ensures vanish { laws.EquationsVanish }
    ensures prove { laws.CombinationsProve }
{}
