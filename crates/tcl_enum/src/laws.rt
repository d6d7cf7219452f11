//! Laws of the definitions. The function does nothing; its clauses are the laws.

ghost use Rattle.tcl_enum.specs.Laws as laws;

/// Of a fact in order `All` says that it has no wide equation and that its claim holds in every assignment in which its
/// hypotheses and its cube hold; `Fails` gives the free variables of an assignment that denies it; `Wide` says that it has
/// a wide equation.
pub fn walks_decide()
    ensures all { laws.AllDecides }
    ensures fails { laws.FailsRefutes }
    ensures wide { laws.WideDecides }
{}
