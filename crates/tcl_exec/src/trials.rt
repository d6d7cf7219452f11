//! Inputs that are tried before anything is proved.

ghost use Rattle.std.specs.Prelude.{◌≡◌, ◌<◌, ◌^◌, IfOk};
ghost use Rattle.tcl_lang.specs.Types.{IsTy, InType};
ghost use Rattle.tcl_lang.specs.Run.{Fits, taken_types};
ghost use Rattle.tcl_exec.specs.Trial as words;

use crate::input::taken_type;
use std::alloc::{AllocError, Global};
use tcl_lang::{Input, Ssa, Ty, wrap};
use tcl_num::{least_value, values_end};

/// Input `k` of the 256 that are tried: all 0, all greatest, all least, all 1, all -1, and then inputs whose values come
/// from a linear congruential generator that begins with `k`. `Err` is that memory has run out.
pub fn trial(alloc: Global, k: u32, ssa: &Ssa) -> Result<Input, AllocError>
    requires { k < 256 }
    ensures values { IfOk result (λ input. input ≡ words.trial_of k (taken_types ssa.now.lines)) }
    ensures fits { IfOk result (λ input. Fits (taken_types ssa.now.lines) input) }
{
    let lines = ssa.lines();
    let mut input = Input::new(alloc);
    let mut state = k as u64;
    for place in 0..lines.len() {
        if let Some(ty) = taken_type(lines, place) {
            state = next_state(state);
            input.push(trial_value(k, state, ty))?;
        }
    }
    Ok(input)
}

/// The state of the generator after this one (the multiplier and increment of Knuth's MMIX, TAOCP 3.3.4).
fn next_state(state: u64) -> u64
    ensures { result ≡ words.next_state state }
{
    state
        .wrapping_mul(6364136223846793005)
        .wrapping_add(1442695040888963407)
}

/// A value of the type for trial `k`, where the generator has this state.
fn trial_value(k: u32, state: u64, ty: Ty) -> i128
    requires { IsTy ty }
    ensures value { result ≡ words.trial_value k state ty }
    ensures typed { InType ty result }
{
    match k {
        0 => 0,
        1 => values_end(ty.signed, ty.width) - 1,
        2 => least_value(ty.signed, ty.width),
        3 => wrap(ty, 1),
        4 => wrap(ty, -1),
        _ => wrap(ty, (state >> (64 - ty.width)) as i128),
    }
}
