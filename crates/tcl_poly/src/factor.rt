// Unknowns and factors of monomials.

ghost use Rattle.std.specs.Prelude.{◌≡◌};
ghost use Rattle.tcl_poly.specs.Unknown as u;

/// An unknown of a polynomial.
#[derive(Clone, Copy, Drop)]
pub enum Unknown {
    /// The variable of that number.
    Var(u32),
    /// The quotient that the line at that place brings in.
    Quot(u32),
}

impl Unknown {
    /// The number by which unknowns are ordered: variables by number, then the unknowns of lines by place.
    pub fn key(&self) -> u64
        ensures { result ≡ u.key_of self.now }
    {
        match self {
            Unknown::Var(v) => variable_key(*v),
            Unknown::Quot(p) => (1 << 32) + *p as u64 + 1,
        }
    }
}

/// The key of the variable of that number. The key 0 is left free for a further unknown before all variables.
pub fn variable_key(variable: u32) -> u64
    ensures { result ≡ u.variable_key variable }
{
    variable as u64 + 1
}

impl Default for Unknown {
    fn default() -> Self {
        Unknown::Var(0)
    }
}

/// A power of an unknown.
#[derive(Clone, Copy, Drop, Default)]
pub struct Factor {
    pub unknown: Unknown,
    pub exponent: u32,
}
