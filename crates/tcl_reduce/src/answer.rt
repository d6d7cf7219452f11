// The answers of plain reduction.

use tcl_poly::{Cofactors, Poly};
use tcl_port::{At, What};
use tcl_ring::Ring;

/// What plain reduction makes of a polynomial.
///
/// The cofactors are by the numbers of the definitions. The polynomial is what is left plus the sum of the cofactors
/// times the equations `variable - definition`. The number is the bound that was spent: the norm of the polynomial and what
/// each substitution added to it at most; it stays at 2^127 where it is greater.
#[derive(Drop)]
pub enum Plain<R: Ring> {
    /// Nothing is left.
    Zero(Cofactors<R>, u128),
    /// This is left.
    Rest(Poly<R>, Cofactors<R>, u128),
    /// Over the integers the bound of the norms is 2^127 or more at this line.
    Wide(At),
    /// A degree above 1,024 or more than 65,536 terms would be made; the count stays at 2^32 - 1 where it is greater.
    Large(What, u32),
    /// Memory has run out.
    Memory,
}
