//! Lines whose truth 128 bits always tell.

ghost use Rattle.std.specs.Prelude.{◌≡◌, true};
ghost use Rattle.tcl_lang.specs.Line.{predicate_of};
ghost use Rattle.tcl_lang.specs.Narrow as narrow;
ghost use Rattle.tcl_lang.specs.Values as values;
ghost use Rattle.tcl_measure.specs.SoundModulus.{HasSoundModulus, IsSound};

use crate::equation::equation_size;
use crate::modulus::is_wide_modulus;
use crate::term::SIZE_END;
use tcl_lang::{AlgPred, Line, Pred, Variable};

/// Whether the line keeps the static bounds over these variables: an equation without a modulus has a size below `2^126`,
/// one with a modulus has a modulus that is not wide, and every other line keeps them.
pub fn is_narrow(variables: &[Variable], line: &Line) -> bool
    requires { HasSoundModulus line.now }
    ensures { result ≡ narrow.is_narrow (values.types_of variables.now) line.now }
{
    match line.predicate() {
        Some(Pred::Alg(pred)) => is_narrow_equation(variables, pred),
        Some(Pred::Rng(_)) | None => true,
    }
}

/// The same of an equation.
fn is_narrow_equation(variables: &[Variable], pred: &AlgPred) -> bool
    requires { IsSound pred.now.modulus }
    ensures { result ≡ narrow.is_narrow_equation (values.types_of variables.now) pred.now.left pred.now.right pred.now.modulus }
{
    match &pred.modulus {
        None => equation_size(variables, &pred.left, &pred.right) < SIZE_END,
        Some(modulus) => !is_wide_modulus(modulus.as_slice()),
    }
}
