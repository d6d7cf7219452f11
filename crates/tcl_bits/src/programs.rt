// An adder and a comparison on lists of bits, by the definitions of their circuits.

ghost use Rattle.std.specs.Prelude.{◌≡◌, ◌+◌, ◌*◌, ◌^◌, ◌<◌, ◌==◌, ◌&&◌, length, int_lt, IfOk};
ghost use Rattle.tcl_bits.specs.Value.{bit_value, unsigned_value, word_value};
ghost use Rattle.tcl_bits.specs.Circuit.{xor_bit, major_bit, sum_bits, carry_out, less_bit};

use std::alloc::{AllocError, Global};

/// A sum of binary words: as many bits as they have, lowest first, and the carry above them.
#[derive(Debug, Drop)]
pub struct Sum {
    pub bits: Vec<bool>,
    pub carry: bool,
}

fn xor(x: bool, y: bool) -> bool
    ensures { result ≡ xor_bit x y }
{
    x != y
}

fn major(x: bool, y: bool, z: bool) -> bool
    ensures { result ≡ major_bit x y z }
{
    if x { y || z } else { y && z }
}

/// The sum of two words of one length and a carry, by the chain of full adders.
pub fn add(alloc: Global, xs: &[bool], ys: &[bool], carry: bool) -> Result<Sum, AllocError>
    requires { length xs.now ≡ length ys.now }
    ensures bits { IfOk result (λ sum. sum.bits.items ≡ sum_bits xs.now ys.now carry) }
    ensures carry { IfOk result (λ sum. sum.carry ≡ carry_out xs.now ys.now carry) }
    ensures value { IfOk result (λ sum. unsigned_value sum.bits.items + 2 ^ length xs.now * bit_value sum.carry
        ≡ unsigned_value xs.now + unsigned_value ys.now + bit_value carry) }
{
    let mut bits = Vec::new(alloc);
    let mut next = carry;
    for i in 0..xs.len() {
        bits.push(xor(xor(xs[i], ys[i]), next))?;
        next = major(xs[i], ys[i], next);
    }
    Ok(Sum { bits, carry: next })
}

/// Whether place `i` of a word of this length is that of the sign.
fn is_sign(signed: bool, i: usize, len: usize) -> bool
    requires { i < len }
    ensures { result ≡ signed && (i + 1 == len) }
{
    signed && i + 1 == len
}

/// Whether the first of two words of one length is the lesser, both signed or both unsigned: the carry chain of their
/// difference, where signed words have their highest bits flipped first.
pub fn is_less(signed: bool, xs: &[bool], ys: &[bool]) -> bool
    requires { length xs.now ≡ length ys.now }
    ensures chain { result ≡ less_bit signed xs.now ys.now }
    ensures value { result ≡ int_lt (word_value signed xs.now) (word_value signed ys.now) }
{
    let mut carry = true;
    for i in 0..xs.len() {
        let flips = is_sign(signed, i, xs.len());
        carry = major(xor(xs[i], flips), !xor(ys[i], flips), carry);
    }
    !carry
}
