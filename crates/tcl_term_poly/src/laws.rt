//! Laws of the definitions. Each function does nothing; its clause is the law.

ghost use Rattle.tcl_term_poly.specs.Laws as laws;

/// The polynomial of a term has, in its ring, the term's value at each point that gives every variable its value.
pub fn terms_agree()
    ensures { laws.TermsAgree }
{}
