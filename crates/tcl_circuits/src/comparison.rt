// Comparisons, and the range of a narrower type.

ghost use Rattle.std.specs.Prelude.{◌≡◌, ◌+◌, ◌/◌, ◌<◌, ◌≤◌, Bool, List, IfOk, OnOk, OnErr, length, []};
ghost use Rattle.tcl_bits.specs.Circuit.{less_bit, equal_bit, range_bit};
ghost use Rattle.tcl_gates.specs.Meaning.{lit_bit, word_bits, AreWithin, IsPart};
ghost use Rattle.tcl_circuits.specs.Circuits.{top_negated, compared, less, equal, in_range};

use crate::chaining::chain;
use crate::links::Link;
use crate::lits::{Lits, not};
use crate::parts::{copies, high_part, last_of, low_part};
use std::alloc::{AllocError, Global};
use tcl_cnf::Lit;
use tcl_gates::Gates;

/// Negates the highest bit, if there is one.
#[tactic(auto, using(crate::proofs::Within::top_code, crate::proofs::Within::top_none))]
fn negate_top(word: &mut Lits)
    ensures { word.new ≡ top_negated word.old }
{
    let count = word.len();
    if count > 0 {
        let top = not(*word.at(count - 1));
        word.set(count - 1, top);
    }
}

/// The word as a comparison takes it: the highest bit of a signed one is negated.
#[tactic(auto, using(crate::proofs::Within::take_own))]
fn compared_word(alloc: Global, signed: bool, a: &Lits) -> Result<Lits, AllocError>
    ensures { IfOk result (λ word. word ≡ compared signed a.now) }
{
    let mut word = low_part(alloc, a, a.len())?;
    if signed {
        negate_top(&mut word);
    }
    Ok(word)
}

/// Whether the first of two words of one length is the lesser, both signed or both unsigned: the carry of the first word
/// and the negated second one, which is true where the first is not the lesser. Of words of two lengths it takes as many
/// bits as the shorter one has.
///
/// After an `Err`, which is that memory has run out, the gates are those before with a part of the circuit behind them.
#[tactic(auto, using(tcl_gates::proofs::Shown::part_none, crate::proofs::Loops::chain_begins, crate::proofs::Within::within_compared, crate::proofs::Values::less_lit), unfolding(crate::specs::Circuits::less))]
pub fn less(
    alloc: Global,
    gates: &mut Gates,
    signed: bool,
    a: &Lits,
    b: &Lits,
) -> Result<Lit, AllocError>
    requires first { AreWithin (length gates.old) a.now }
    requires second { AreWithin (length gates.old) b.now }
    ensures made { OnOk result (gates.new ≡ (less gates.old signed a.now b.now).gates) }
    ensures lit { IfOk result (λ lit. lit ≡ (less gates.old signed a.now b.now).lit) }
    ensures value { IfOk result (λ lit. (free : List Bool) → lit_bit gates.new free lit
        ≡ less_bit signed (word_bits gates.old free a.now) (word_bits gates.old free b.now)) }
    ensures within { IfOk result (λ lit. lit / 2 ≤ length gates.new) }
    ensures longer { OnOk result (length gates.old ≤ length gates.new) }
    ensures part { OnErr result (IsPart gates.old gates.new (less gates.old signed a.now b.now).gates) }
{
    let x = compared_word(alloc, signed, a)?;
    let y = compared_word(alloc, signed, b)?;
    let last = chain(gates, Link::Less, &x, &y)?;
    Ok(not(last))
}

/// Whether two words of one length are equal. Of words of two lengths it takes as many bits as the shorter one has.
///
/// After an `Err`, which is that memory has run out, the gates are those before with a part of the circuit behind them.
#[tactic(auto, unfolding(crate::specs::Circuits::equal))]
pub fn equal(gates: &mut Gates, a: &Lits, b: &Lits) -> Result<Lit, AllocError>
    requires first { AreWithin (length gates.old) a.now }
    requires second { AreWithin (length gates.old) b.now }
    ensures made { OnOk result (gates.new ≡ (equal gates.old a.now b.now).gates) }
    ensures lit { IfOk result (λ lit. lit ≡ (equal gates.old a.now b.now).lit) }
    ensures value { IfOk result (λ lit. (free : List Bool) → lit_bit gates.new free lit
        ≡ equal_bit (word_bits gates.old free a.now) (word_bits gates.old free b.now)) }
    ensures within { IfOk result (λ lit. lit / 2 ≤ length gates.new) }
    ensures longer { OnOk result (length gates.old ≤ length gates.new) }
    ensures part { OnErr result (IsPart gates.old gates.new (equal gates.old a.now b.now).gates) }
{
    let last = chain(gates, Link::Equal, a, b)?;
    Ok(last)
}

/// Whether a word lies in the range of a type of `width` bits, where it is of the same sign and has more: each bit from
/// `width` on is false, or of a signed word the bit below them.
///
/// After an `Err`, which is that memory has run out, the gates are those before with a part of the circuit behind them.
#[tactic(auto, using(tcl_gates::proofs::Shown::part_none, crate::proofs::Loops::chain_begins, tcl_gates::proofs::Shown::within_drop, tcl_gates::proofs::Shown::within_copies, crate::proofs::Within::within_last, tcl_gates::proofs::Shown::within_take, crate::proofs::Values::range_lit), unfolding(crate::specs::Circuits::in_range))]
pub fn in_range(
    alloc: Global,
    gates: &mut Gates,
    a: &Lits,
    signed: bool,
    width: u32,
) -> Result<Lit, AllocError>
    requires first { AreWithin (length gates.old) a.now }
    ensures made { OnOk result (gates.new ≡ (in_range gates.old signed width a.now).gates) }
    ensures lit { IfOk result (λ lit. lit ≡ (in_range gates.old signed width a.now).lit) }
    ensures value { IfOk result (λ lit. (free : List Bool) → lit_bit gates.new free lit
        ≡ range_bit signed width (word_bits gates.old free a.now)) }
    ensures within { IfOk result (λ lit. lit / 2 ≤ length gates.new) }
    ensures longer { OnOk result (length gates.old ≤ length gates.new) }
    ensures part { OnErr result (IsPart gates.old gates.new (in_range gates.old signed width a.now).gates) }
{
    let width = width as usize;
    let rest = high_part(alloc, a, width)?;
    if signed {
        let low = low_part(alloc, a, width)?;
        let signs = copies(alloc, last_of(&low), a.len().saturating_sub(width))?;
        let last = chain(gates, Link::Equal, &rest, &signs)?;
        Ok(last)
    } else {
        let last = chain(gates, Link::Clear, &rest, &rest)?;
        Ok(last)
    }
}
