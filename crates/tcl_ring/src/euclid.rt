// Residues as natural numbers, and the inverse by Euclid's algorithm with one cofactor (Knuth, TAOCP 4.5.2, exercise 15).

ghost use Rattle.std.specs.Prelude.{◌≡◌, ℤ, pos, ◌*ℤ◌, ◌<◌, ◌≤◌, ◌+◌, ◌-◌, ◌*◌, ◌%◌, ◌^◌, MatchOption};
ghost use Rattle.std.specs.Int.{int_rem_euclid};
ghost use Rattle.tcl_ring.specs.Reduction.{IsResidueInverse};

use tcl_num::mul_mod;

/// The residue of a number from 0 up.
pub(crate) fn rest(n: &i128, m: u128) -> u128
    requires positive { 0 < m }
    requires narrow { m ≤ 2 ^ 126 }
    ensures value { int_rem_euclid n.now (pos m) ≡ pos result }
    ensures below { result < m }
{
    if 0 <= *n && (*n as u128) < m {
        *n as u128
    } else {
        n.rem_euclid(m as i128) as u128
    }
}

/// The residue as an element.
pub(crate) fn element(n: u128) -> i128
    requires { n < 2 ^ 126 }
    ensures { result ≡ pos n }
{
    n as i128
}

/// The residue of a difference of residues.
pub(crate) fn sub_mod(a: u128, b: u128, m: u128) -> u128
    requires first { a < m }
    requires second { b < m }
    requires modulus { m ≤ 2 ^ 126 }
    ensures { result ≡ (a + (m - b)) % m }
{
    if a >= b { a - b } else { a + (m - b) }
}

/// The inverse of a residue, where there is one: exactly where the greatest common divisor with the modulus is 1.
pub(crate) fn inverse_of(a: u128, m: u128) -> Option<u128>
    requires residue { a < m }
    requires modulus { m ≤ 2 ^ 126 }
    ensures { IsResidueInverse m a result }
{
    let mut divisor = m;
    let mut cofactor = 0;
    let mut next = a;
    let mut next_cofactor = 1 % m;
    while next > 0 {
        let quotient = divisor / next;
        let rest = divisor % next;
        let following = sub_mod(cofactor, mul_mod(quotient, next_cofactor, m), m);
        divisor = next;
        cofactor = next_cofactor;
        next = rest;
        next_cofactor = following;
    }
    if divisor == 1 { Some(cofactor) } else { None }
}
