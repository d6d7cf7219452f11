//! The truth of an equation or a congruence.

ghost use Rattle.std.specs.Prelude.{◌≡◌, ◌-ℤ◌, None, pos};
ghost use Rattle.tcl_num.specs.Congruence.{is_multiple};
ghost use Rattle.tcl_lang.specs.Bound as bound;
ghost use Rattle.tcl_lang.specs.Term.{term_value};
ghost use Rattle.tcl_lang.specs.Truth as truth;
ghost use Rattle.tcl_lang.specs.Values.{AreValues, words_of};
ghost use Rattle.tcl_measure.specs.SoundModulus.{IsSound};
ghost use Rattle.tcl_exec.specs.Residue as residue_words;

use crate::residues::Residues;
use crate::truth::yes_or_no;
use tcl_lang::{AlgPred, Truth, Variable};
use tcl_measure::{equation_size, is_wide_modulus, modulus_value};

/// The computed truth of an equation or a congruence.
pub(crate) fn equation_truth(variables: &[Variable], values: &[i128], pred: &AlgPred) -> Truth
    requires values { AreValues variables.now values.now }
    requires sound { IsSound pred.now.modulus }
    ensures { result ≡ truth.equation_truth (words_of variables.now values.now) pred.now.left pred.now.right pred.now.modulus }
{
    match &pred.modulus {
        None => plain_truth(variables, values, pred),
        Some(modulus) => {
            if is_wide_modulus(modulus.as_slice()) {
                return Truth::Wide;
            }
            let residues = Residues {
                modulus: Some(modulus_value(modulus.as_slice())),
            };
            yes_or_no(agree(residues, variables, values, pred))
        }
    }
}

/// The same without a modulus: by the values modulo `2^128` and the size bound.
fn plain_truth(variables: &[Variable], values: &[i128], pred: &AlgPred) -> Truth
    requires { AreValues variables.now values.now }
    ensures { result ≡ truth.equation_truth (words_of variables.now values.now) pred.now.left pred.now.right None }
{
    if !agree(Residues { modulus: None }, variables, values, pred) {
        return Truth::No;
    }
    if size(variables, values, pred) < 1 << 126 {
        Truth::Yes
    } else {
        Truth::Wide
    }
}

/// The size bound of the equation at these values, which is that of their types.
fn size(variables: &[Variable], values: &[i128], pred: &AlgPred) -> u128
    requires { AreValues variables.now values.now }
    ensures { result ≡ bound.equation_size (words_of variables.now values.now) pred.now.left pred.now.right }
{
    let _values = values;
    equation_size(variables, &pred.left, &pred.right)
}

/// Whether both sides have one residue.
fn agree(residues: Residues, variables: &[Variable], values: &[i128], pred: &AlgPred) -> bool
    ensures { result ≡ is_multiple (pos (residue_words.residue_count residues.modulus)) (term_value (words_of variables.now values.now) pred.now.left -ℤ term_value (words_of variables.now values.now) pred.now.right) }
{
    let left = residues.term(variables, values, &pred.left);
    left == residues.term(variables, values, &pred.right)
}
