// Words of literals.

ghost use Rattle.std.specs.Prelude.{◌≡◌, ◌/◌};
ghost use Rattle.tcl_cnf.specs.Literal.{neg};

use tcl_cnf::Lit;
use tcl_list::Listing;

/// The literals of a word, the lowest bit first.
pub type Lits = Listing<Lit>;

/// The literal of the same variable with the other sign.
#[tactic(auto, using(tcl_gates::proofs::Shown::neg_variable))]
pub(crate) fn not(l: Lit) -> Lit
    ensures value { result ≡ neg l }
    ensures variable { result / 2 ≡ l / 2 }
{
    l.negation()
}
