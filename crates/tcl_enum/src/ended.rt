//! What a walk through all assignments of a fact ends with.

use tcl_list::Listing;

/// A free variable with its value.
#[derive(Clone, Copy, PartialEq, Eq)]
pub struct FreeValue {
    pub var: u32,
    pub value: i128,
}

/// The values of the free variables of a fact, by variable.
pub type FreeValues = Listing<FreeValue>;

/// What a walk ends with. `All`: the claim holds in every assignment in which the hypotheses and the cube hold. `Fails`: it
/// does not, with the values of the first assignment that denies it. `Wide`: an equation of the fact has numbers that are too
/// great for its truth to be computed. `Memory`: memory has run out.
pub enum Ended {
    All,
    Fails(FreeValues),
    Wide,
    Memory,
}

impl Drop for Ended {
    fn drop(self) {
        match self {
            Ended::All | Ended::Wide | Ended::Memory => (),
            Ended::Fails(values) => drop(values),
        }
    }
}
