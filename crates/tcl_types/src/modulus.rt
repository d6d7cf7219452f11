// The form of a modulus, read off its parts without computing a power.

ghost use Rattle.std.specs.Prelude.{◌≡◌, drop, Some};
ghost use Rattle.tcl_lang.specs.Modulus as modulus;
ghost use Rattle.tcl_lang.specs.Typing as typing;

use crate::number::is_below_power;
use tcl_lang::{Part, Pred};

pub(crate) fn has_sound_modulus(pred: &Pred) -> bool
    ensures { result ≡ typing.has_sound_modulus (Some pred.now) }
{
    match pred {
        Pred::Alg(pred) => match &pred.modulus {
            None => true,
            Some(parts) => is_modulus(parts.as_slice()),
        },
        Pred::Rng(_) => true,
    }
}

/// One number from 1, or powers of 2 with falling exponents, the first with a plus, and then at most one number that is
/// less than the last power.
fn is_modulus(parts: &[Part]) -> bool
    ensures { result ≡ modulus.is_modulus parts.now }
{
    if parts.is_empty() {
        return false;
    }
    let first = parts[0];
    match first.power {
        None => parts.len() == 1 && !first.minus && 0 < first.base,
        Some(exponent) => !first.minus && first.base == 2 && falls_after_first(parts, exponent),
    }
}

#[tactic(auto, unfolding(tcl_lang::specs::Modulus::falls_from))]
fn falls_after_first(parts: &[Part], exponent: u32) -> bool
    ensures { result ≡ modulus.falls_from exponent (drop 1 parts.now) }
{
    let mut last = exponent;
    for k in 1..parts.len() {
        let part = parts[k];
        match part.power {
            None => return k + 1 == parts.len() && is_below_power(part.base, last),
            Some(power) => {
                if part.base != 2 || last <= power {
                    return false;
                }
                last = power;
            }
        }
    }
    true
}
