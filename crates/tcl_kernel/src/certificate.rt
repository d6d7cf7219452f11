//! Certificates.

use tcl_cnf::LogLines;
use tcl_list::Listing;
use tcl_remainder::CofactorLines;

/// Numbers of facts that were shown earlier.
pub type EntryNumbers = Listing<u32>;

/// How a fact is shown.
pub enum Cert {
    /// The claim follows from the intervals of the variables.
    Bounds,
    /// Every assignment of the free bits, of which there are at most 20, meets the claim.
    Enumerated,
    /// These chains of resolutions derive the empty clause from the clauses of the fact.
    Log(LogLines),
    /// The sum of these cofactors' products with the equations of the fact is the polynomial of the claim.
    Cofactors(CofactorLines),
    /// These earlier facts have the same claim, and no hypotheses and uses but those of the fact; their cubes, which name at
    /// most 22 different bits, cover all assignments that meet the cube of the fact.
    Cases(EntryNumbers),
}

impl Drop for Cert {
    fn drop(self) {
        match self {
            Cert::Bounds => (),
            Cert::Enumerated => (),
            Cert::Log(lines) => drop(lines),
            Cert::Cofactors(lines) => drop(lines),
            Cert::Cases(items) => drop(items),
        }
    }
}

impl Cert {
    ghost use Rattle.std.specs.Prelude.{◌≡◌};
    ghost use Rattle.tcl_kernel.specs.Certificates as words;

    /// Whether a proof by the certificate rests on no earlier fact.
    pub(crate) fn stands_alone(&self) -> bool
        ensures { result ≡ words.stands_alone self.now }
    {
        match self {
            Cert::Cases(_) => false,
            _ => true,
        }
    }
}
