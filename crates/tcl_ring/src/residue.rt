// The residues of a modulus.

ghost use Rattle.std.specs.Prelude.{◌<◌, ◌≤◌, ◌^◌, Some};

use crate::euclid::{element, inverse_of, rest, sub_mod};
use crate::{Ring, Wide};
use tcl_num::{add_mod, mul_mod};

/// The residues of a modulus from 1 to 2^126. No result is too great.
#[derive(Debug, Clone, Copy, Drop)]
pub struct Residue {
    pub modulus: u128,
    pub ghost positive: { 0 < modulus },
    pub ghost narrow: { modulus ≤ 2 ^ 126 },
}

impl Ring for Residue {
    type Elem = i128;

    ghost modulus_of = { λ r. Some r.modulus };

    ghost amount = { λ _ a. a };

    fn number(&self, n: i128) -> Result<i128, Wide> {
        Ok(element(rest(&n, self.modulus)))
    }

    fn add(&self, a: &i128, b: &i128) -> Result<i128, Wide> {
        let m = self.modulus;
        Ok(element(add_mod(rest(a, m), rest(b, m), m)))
    }

    fn neg(&self, a: &i128) -> Result<i128, Wide> {
        let m = self.modulus;
        Ok(element(sub_mod(0, rest(a, m), m)))
    }

    fn mul(&self, a: &i128, b: &i128) -> Result<i128, Wide> {
        let m = self.modulus;
        Ok(element(mul_mod(rest(a, m), rest(b, m), m)))
    }

    fn add_product(&self, a: &i128, b: &i128, c: &i128) -> Result<i128, Wide> {
        let m = self.modulus;
        let product = mul_mod(rest(b, m), rest(c, m), m);
        Ok(element(add_mod(rest(a, m), product, m)))
    }

    fn inverse(&self, a: &i128) -> Option<i128> {
        let m = self.modulus;
        match inverse_of(rest(a, m), m) {
            Some(inverse) => Some(element(inverse)),
            None => None,
        }
    }

    fn value(&self, a: &i128) -> i128 {
        *a
    }

    fn modulus(&self) -> Option<u128> {
        Some(self.modulus)
    }

    ghost is_modulus = { λ r. (r.positive, r.narrow) };
}
