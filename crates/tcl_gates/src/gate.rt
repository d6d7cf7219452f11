// Gates over literals.

use tcl_cnf::Lit;

/// A gate, whose value the variable that it names has.
#[derive(Clone, Copy)]
pub enum Gate {
    /// True where both literals are.
    And(Lit, Lit),
    /// True where exactly one literal is.
    Xor(Lit, Lit),
    /// True where at least two literals are.
    Major(Lit, Lit, Lit),
    /// The second literal's value where the first is true, and else the third's.
    Choice(Lit, Lit, Lit),
    /// A free variable, with a clause for neither value.
    Free,
}
