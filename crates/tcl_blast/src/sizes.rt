// How many gates a range predicate has at least, before any of them is made.

ghost use Rattle.std.specs.Prelude.{◌≡◌, ◌≤◌, ◌+◌, ◌*◌, length};
ghost use Rattle.tcl_words.specs.Ranges.{atom_lits};
ghost use Rattle.tcl_blast.specs.Sizes.{counted, bounded, product_gates, combined_gates, combined_bits, combined_size, term_size, compared_size, pred_size};

use tcl_lang::{Atom, RngOp, RngPred, RngTerm};
use tcl_words::Words;

/// A count of gates stands still here.
const GATE_LIMIT: u64 = 4_194_304;

/// A word counts for at most so many bits.
const BIT_LIMIT: u32 = 64;

/// At least so many gates, and the length of the word.
#[derive(Clone, Copy)]
pub(crate) struct Size {
    pub(crate) gates: u64,
    pub(crate) bits: u32,
}

/// At least so many gates has a range predicate.
pub(crate) fn pred_size(words: &Words, pred: &RngPred) -> u64
    ensures size { result ≡ pred_size words.now pred.now }
    ensures bound { result ≤ 4194304 }
{
    match pred {
        RngPred::True => 0,
        RngPred::False => 0,
        RngPred::Cmp(_, left, right) => {
            compared_size(term_size(words, left), term_size(words, right))
        }
        RngPred::Not(inner) => pred_size(words, inner.get()),
        RngPred::Both(left, right) => {
            let first = pred_size(words, left.get());
            counted(first + pred_size(words, right.get()) + 1)
        }
        RngPred::Either(left, right) => {
            let first = pred_size(words, left.get());
            counted(first + pred_size(words, right.get()) + 1)
        }
    }
}

/// A comparison of two words.
fn compared_size(s: Size, t: Size) -> u64
    requires first { s.gates ≤ 4194304 }
    requires second { t.gates ≤ 4194304 }
    ensures size { result ≡ compared_size s t }
    ensures bound { result ≤ 4194304 }
{
    counted(s.gates + t.gates + s.bits.min(t.bits) as u64)
}

/// At least so many gates has a range term, and so many bits.
fn term_size(words: &Words, term: &RngTerm) -> Size
    ensures size { result ≡ term_size words.now term.now }
    ensures bound { result.gates ≤ 4194304 }
    ensures bits { result.bits ≤ 64 }
{
    match term {
        RngTerm::Leaf(atom) => Size {
            gates: counted(0),
            bits: atom_bits(words, *atom),
        },
        RngTerm::Neg(inner) => {
            let s = term_size(words, inner.get());
            Size {
                gates: counted(s.gates + 3 * s.bits as u64),
                bits: s.bits,
            }
        }
        RngTerm::Flip(inner) => term_size(words, inner.get()),
        RngTerm::Bin(op, left, right) => {
            let s = term_size(words, left.get());
            combined_size(*op, s, term_size(words, right.get()))
        }
        RngTerm::Cast(ty, inner) => {
            let s = term_size(words, inner.get());
            Size {
                gates: counted(s.gates),
                bits: ty.width.min(BIT_LIMIT),
            }
        }
    }
}

/// Two words by an operator.
fn combined_size(op: RngOp, s: Size, t: Size) -> Size
    requires first { s.gates ≤ 4194304 }
    requires second { t.gates ≤ 4194304 }
    requires left { s.bits ≤ 64 }
    requires right { t.bits ≤ 64 }
    ensures size { result ≡ combined_size op s t }
    ensures bound { result.gates ≤ 4194304 }
    ensures bits { result.bits ≤ 64 }
{
    Size {
        gates: counted(s.gates + t.gates + combined_gates(op, s.bits, t.bits)),
        bits: combined_bits(op, s.bits, t.bits),
    }
}

fn combined_gates(op: RngOp, a: u32, b: u32) -> u64
    requires left { a ≤ 64 }
    requires right { b ≤ 64 }
    ensures gates { result ≡ combined_gates op a b }
    ensures few { result ≤ 65536 }
{
    match op {
        RngOp::Add => 3 * a.min(b) as u64,
        RngOp::Sub => 3 * a.min(b) as u64,
        RngOp::Mul => { if a <= b { product_gates(a) } else { 0 } }
        RngOp::And => a.min(b) as u64,
        RngOp::Or => a.min(b) as u64,
        RngOp::Xor => a.min(b) as u64,
    }
}

fn combined_bits(op: RngOp, a: u32, b: u32) -> u32
    requires left { a ≤ 64 }
    requires right { b ≤ 64 }
    ensures bits { result ≡ combined_bits op a b }
    ensures few { result ≤ 64 }
{
    match op {
        RngOp::Mul => a,
        RngOp::Add => a.min(b),
        RngOp::Sub => a.min(b),
        RngOp::And => a.min(b),
        RngOp::Or => a.min(b),
        RngOp::Xor => a.min(b),
    }
}

/// The gates of a product of two words of so many bits.
#[tactic(auto, unfolding(crate::specs::Sizes::product_gates))]
fn product_gates(bits: u32) -> u64
    requires { bits ≤ 64 }
    ensures gates { result ≡ product_gates bits }
    ensures few { result ≤ 65536 }
{
    let mut gates = 0;
    for k in 0..bits {
        gates += 4 * k as u64 + 1;
    }
    gates
}

/// As many bits as an operand has.
#[tactic(auto, using(tcl_circuits::proofs::Within::length_constant))]
fn atom_bits(words: &Words, atom: Atom) -> u32
    ensures bits { result ≡ bounded (length (atom_lits words.now atom)) }
    ensures few { result ≤ 64 }
{
    match atom {
        Atom::Var(name) => word_bits(words, name),
        Atom::Lit(ty, _) => ty.width.min(BIT_LIMIT),
    }
}

/// As many bits as a variable has literals.
fn word_bits(words: &Words, name: u32) -> u32
    ensures bits { result ≡ bounded (length (atom_lits words.now (Atom.Var name))) }
    ensures few { result ≤ 64 }
{
    match words.as_slice().get(name as usize) {
        Some(lits) => lits.len().min(BIT_LIMIT as usize) as u32,
        None => 0,
    }
}

/// A count that stands still at the limit.
fn counted(n: u64) -> u64
    ensures count { result ≡ counted n }
    ensures bound { result ≤ 4194304 }
{
    n.min(GATE_LIMIT)
}
