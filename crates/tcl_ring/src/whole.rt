// The integers of magnitude below 2^127.

ghost use Rattle.std.specs.Prelude.{None};

use crate::{Ring, Wide};
use tcl_num::{is_small, small_negation, small_product, small_sum, small_sum_with_product};

/// The ring of all integers, of which it has those of magnitude below 2^127.
#[derive(Debug, Clone, Copy, Drop)]
pub struct Whole;

impl Ring for Whole {
    type Elem = i128;

    ghost modulus_of = { λ _. None };

    ghost amount = { λ _ a. a };

    fn number(&self, n: i128) -> Result<i128, Wide> {
        if is_small(&n) { Ok(n) } else { Err(Wide) }
    }

    fn add(&self, a: &i128, b: &i128) -> Result<i128, Wide> {
        small_sum(a, b).ok_or(Wide)
    }

    fn neg(&self, a: &i128) -> Result<i128, Wide> {
        small_negation(a).ok_or(Wide)
    }

    fn mul(&self, a: &i128, b: &i128) -> Result<i128, Wide> {
        small_product(a, b).ok_or(Wide)
    }

    fn add_product(&self, a: &i128, b: &i128, c: &i128) -> Result<i128, Wide> {
        small_sum_with_product(a, b, c).ok_or(Wide)
    }

    fn inverse(&self, a: &i128) -> Option<i128> {
        if *a == 1 || *a == -1 { Some(*a) } else { None }
    }

    fn value(&self, a: &i128) -> i128 {
        *a
    }

    fn modulus(&self) -> Option<u128> {
        None
    }

    ghost is_modulus = { λ _. tt };
}
