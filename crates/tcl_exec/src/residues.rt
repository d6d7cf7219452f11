//! The value of a term modulo a number, and modulo 2 ^ 128.

ghost use Rattle.std.specs.Prelude.{◌≡◌, ◌<◌, ◌≤◌, ◌+◌, ◌-◌, ◌*◌, ◌%◌, ◌^◌, None, Some, pos};
ghost use Rattle.std.specs.Int.{int_rem_euclid};
ghost use Rattle.tcl_lang.specs.Term.{term_value};
ghost use Rattle.tcl_lang.specs.Values.{words_of};
ghost use Rattle.tcl_exec.specs.Residue as residues;

use crate::words::value_of;
use tcl_lang::{Term, Variable};
use tcl_num::{add_mod, mul_mod};

/// The residues of a modulus from 1 to `2^126`, or of `2^128` where there is none.
#[derive(Clone, Copy, Drop)]
pub(crate) struct Residues {
    pub modulus: Option<u128>,
    pub ghost positive: { 0 < residues.residue_count modulus },
    pub ghost narrow: { residues.modulus_in modulus ≤ 2 ^ 126 },
}

impl Residues {
    /// The residue of an integer.
    fn number(self, n: i128) -> u128
        ensures value { pos result ≡ int_rem_euclid n (pos (residues.residue_count self.modulus)) }
        ensures below { result < residues.residue_count self.modulus }
    {
        let residue = self.natural(n.unsigned_abs());
        if n < 0 {
            self.negation(residue)
        } else {
            residue
        }
    }

    /// The residue of a number that is not negative.
    fn natural(self, n: u128) -> u128
        ensures value { result ≡ n % residues.residue_count self.modulus }
        ensures below { result < residues.residue_count self.modulus }
    {
        match self.modulus {
            None => n,
            Some(modulus) => n % modulus,
        }
    }

    /// The residue of a sum.
    fn sum(self, a: u128, b: u128) -> u128
        requires first { a < residues.residue_count self.modulus }
        requires second { b < residues.residue_count self.modulus }
        ensures value { result ≡ (a + b) % residues.residue_count self.modulus }
        ensures below { result < residues.residue_count self.modulus }
    {
        match self.modulus {
            None => a.wrapping_add(b),
            Some(modulus) => add_mod(a, b, modulus),
        }
    }

    /// The residue of a negation.
    fn negation(self, a: u128) -> u128
        requires { a < residues.residue_count self.modulus }
        ensures value { result ≡ (0 + (residues.residue_count self.modulus - a)) % residues.residue_count self.modulus }
        ensures below { result < residues.residue_count self.modulus }
    {
        match self.modulus {
            None => 0u128.wrapping_sub(a),
            Some(modulus) => if a == 0 { 0 } else { modulus - a },
        }
    }

    /// The residue of a product.
    fn product(self, a: u128, b: u128) -> u128
        requires first { a < residues.residue_count self.modulus }
        requires second { b < residues.residue_count self.modulus }
        ensures value { result ≡ (a * b) % residues.residue_count self.modulus }
        ensures below { result < residues.residue_count self.modulus }
    {
        match self.modulus {
            None => a.wrapping_mul(b),
            Some(modulus) => mul_mod(a, b, modulus),
        }
    }

    /// The residue of a power, by squaring.
    fn power(self, base: u128, exponent: u32) -> u128
        requires { base < residues.residue_count self.modulus }
        ensures value { result ≡ base ^ exponent % residues.residue_count self.modulus }
        ensures below { result < residues.residue_count self.modulus }
    {
        if exponent == 0 {
            return self.natural(1);
        }
        let root = self.power(base, exponent / 2);
        let square = self.product(root, root);
        if exponent % 2 == 0 {
            square
        } else {
            self.product(square, base)
        }
    }

    /// The residue of a term's value.
    pub(crate) fn term(self, variables: &[Variable], values: &[i128], term: &Term) -> u128
        ensures value { pos result ≡ int_rem_euclid (term_value (words_of variables.now values.now) term.now) (pos (residues.residue_count self.modulus)) }
        ensures below { result < residues.residue_count self.modulus }
    {
        match term {
            Term::Var(variable) => self.number(value_of(variables, values, *variable)),
            Term::Num(n) => self.number(*n),
            Term::Neg(inner) => self.negation(self.term(variables, values, inner.get())),
            Term::Add(left, right) => {
                let left = self.term(variables, values, left.get());
                self.sum(left, self.term(variables, values, right.get()))
            }
            Term::Sub(left, right) => {
                let left = self.term(variables, values, left.get());
                let right = self.term(variables, values, right.get());
                self.sum(left, self.negation(right))
            }
            Term::Mul(left, right) => {
                let left = self.term(variables, values, left.get());
                self.product(left, self.term(variables, values, right.get()))
            }
            Term::Pow(base, exponent) => {
                self.power(self.term(variables, values, base.get()), *exponent)
            }
        }
    }
}
