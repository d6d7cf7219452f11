//! The words of range terms and the truth of range predicates.

ghost use Rattle.std.specs.Prelude.{◌≡◌, [], ◌∷◌, All, Some, length, neg_ℤ, true};
ghost use Rattle.std.specs.Option.{is_some};
ghost use Rattle.tcl_lang.specs.ResultList.{listed};
ghost use Rattle.tcl_lang.specs.Types.{IsTy};
ghost use Rattle.tcl_lang.specs.Range as ranges;
ghost use Rattle.tcl_lang.specs.Values.{AreValues, types_of, words_of};
ghost use Rattle.tcl_exec.specs.Plain as plain;
ghost use Rattle.tcl_exec.specs.Sound as sound;

use crate::words::word_of;
use tcl_lang::{CmpOp, Op, Results, RngOp, RngPred, RngTerm, Variable, Word, results, wrap};

/// The truth of a range predicate.
pub(crate) fn range_truth(variables: &[Variable], values: &[i128], pred: &RngPred) -> bool
    requires values { AreValues variables.now values.now }
    requires words { All (λ x. IsTy x.ty) variables.now }
    requires sound { sound.is_sound_pred (types_of variables.now) pred.now ≡ true }
    ensures { result ≡ ranges.range_truth (words_of variables.now values.now) pred.now }
{
    match pred {
        RngPred::True => true,
        RngPred::False => false,
        RngPred::Cmp(op, left, right) => {
            let left = range_word(variables, values, left);
            let right = range_word(variables, values, right);
            compares(*op, left.value, right.value)
        }
        RngPred::Not(inner) => !range_truth(variables, values, inner.get()),
        RngPred::Both(left, right) => {
            let left = range_truth(variables, values, left.get());
            let right = range_truth(variables, values, right.get());
            left && right
        }
        RngPred::Either(left, right) => {
            let left = range_truth(variables, values, left.get());
            let right = range_truth(variables, values, right.get());
            left || right
        }
    }
}

/// Whether a comparison of two values holds.
fn compares(op: CmpOp, left: i128, right: i128) -> bool
    ensures { result ≡ ranges.compares op left right }
{
    match op {
        CmpOp::Eq => left == right,
        CmpOp::Ne => left != right,
        CmpOp::Lt => left < right,
        CmpOp::Le => left <= right,
        CmpOp::Gt => left > right,
        CmpOp::Ge => left >= right,
    }
}

/// The word of a range term.
fn range_word(variables: &[Variable], values: &[i128], term: &RngTerm) -> Word
    requires values { AreValues variables.now values.now }
    requires words { All (λ x. IsTy x.ty) variables.now }
    requires sound { is_some (sound.sound_type (types_of variables.now) term.now) ≡ true }
    ensures word { result ≡ ranges.range_word (words_of variables.now values.now) term.now }
    ensures ty { sound.sound_type (types_of variables.now) term.now ≡ Some result.ty }
    ensures sound { sound.IsSoundWord result }
{
    match term {
        RngTerm::Leaf(atom) => word_of(variables, values, *atom),
        RngTerm::Neg(inner) => negated(range_word(variables, values, inner.get())),
        RngTerm::Flip(inner) => flipped(range_word(variables, values, inner.get())),
        RngTerm::Bin(op, left, right) => {
            let left = range_word(variables, values, left.get());
            let right = range_word(variables, values, right.get());
            combined(*op, left, right)
        }
        RngTerm::Cast(ty, inner) => Word {
            ty: *ty,
            value: wrap(*ty, range_word(variables, values, inner.get()).value),
        },
    }
}

/// The word with its sign turned.
fn negated(word: Word) -> Word
    requires { sound.IsSoundWord word }
    ensures word { result ≡ ranges.wrapped_word word.ty (neg_ℤ word.value) }
    ensures sound { sound.IsSoundWord result }
{
    Word {
        ty: word.ty,
        value: wrap(word.ty, -word.value),
    }
}

/// The word with every bit flipped.
fn flipped(word: Word) -> Word
    requires { sound.IsSoundWord word }
    ensures word { result ≡ ranges.wrapped_word word.ty (ranges.flipped word.ty word.value) }
    ensures sound { sound.IsSoundWord result }
{
    computed(Op::Not, word, word)
}

/// The word that a binary operator makes of two words of one type.
fn combined(op: RngOp, left: Word, right: Word) -> Word
    requires left { sound.IsSoundWord left }
    requires right { sound.IsSoundWord right }
    requires types { left.ty ≡ right.ty }
    ensures word { result ≡ ranges.wrapped_word left.ty (ranges.combined op left.ty left.value right.value) }
    ensures sound { sound.IsSoundWord result }
{
    match op {
        RngOp::Add => computed(Op::Add, left, right),
        RngOp::Sub => computed(Op::Sub, left, right),
        RngOp::Mul => computed(Op::Mul, left, right),
        RngOp::And => computed(Op::And, left, right),
        RngOp::Or => computed(Op::Or, left, right),
        RngOp::Xor => computed(Op::Xor, left, right),
    }
}

/// What a plain instruction computes of two words of one type.
fn computed(op: Op, left: Word, right: Word) -> Word
    requires left { sound.IsSoundWord left }
    requires right { sound.IsSoundWord right }
    requires types { left.ty ≡ right.ty }
    requires plain { plain.is_plain op ≡ true }
    ensures word { result ≡ ranges.wrapped_word left.ty (plain.plain_value op left.ty left.value right.value) }
    ensures sound { sound.IsSoundWord result }
{
    let computed = results(op, left.ty, 0, left.value, right.value, 0);
    Word {
        ty: left.ty,
        value: only_result(computed),
    }
}

/// The result of an instruction that has one.
fn only_result(results: Results) -> i128
    requires { length (listed results) ≡ 1 }
    ensures { listed results ≡ result ∷ [] }
{
    match results {
        Results::One(value) => value,
        Results::Two(..) => unreachable!(),
    }
}
