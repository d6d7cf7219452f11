//! Words of values: the values and the types of variables.

ghost use Rattle.std.specs.Prelude.{◌≡◌, All, Some, true, slice_get};
ghost use Rattle.std.specs.Option.{is_some};
ghost use Rattle.tcl_lang.specs.Types.{IsTy};
ghost use Rattle.tcl_lang.specs.Store as stores;
ghost use Rattle.tcl_lang.specs.Values.{AreValues, types_of, words_of};
ghost use Rattle.tcl_exec.specs.Given as given;
ghost use Rattle.tcl_exec.specs.Sound as sound;

use tcl_lang::{Atom, Ty, Variable, Word};

/// The word of a name without a value.
const EMPTY_WORD: Word = Word {
    ty: Ty {
        signed: false,
        width: 0,
    },
    value: 0,
};

/// The word of a variable; the empty word where there is none.
#[tactic(auto, using(crate::proofs::WordsOfValues::word_is))]
pub(crate) fn word_at(variables: &[Variable], values: &[i128], variable: u32) -> Word
    ensures { result ≡ stores.word_at (words_of variables.now values.now) variable }
{
    word_given(variables, values, variable)
}

/// The same, from the variable and its value.
fn word_given(variables: &[Variable], values: &[i128], variable: u32) -> Word
    ensures { result ≡ given.word_given (slice_get variables.now variable) (slice_get values.now variable) }
{
    match variables.get(variable as usize) {
        Some(found) => word_with(found.ty, values, variable),
        None => EMPTY_WORD,
    }
}

/// The word of this type with the value of a variable; the empty word where there is no value.
fn word_with(ty: Ty, values: &[i128], variable: u32) -> Word
    ensures { result ≡ given.word_with ty (slice_get values.now variable) }
{
    match values.get(variable as usize) {
        Some(value) => Word { ty, value: *value },
        None => EMPTY_WORD,
    }
}

/// The value of a variable; 0 where there is none.
pub(crate) fn value_of(variables: &[Variable], values: &[i128], variable: u32) -> i128
    ensures { result ≡ (stores.word_at (words_of variables.now values.now) variable).value }
{
    word_at(variables, values, variable).value
}

/// The word of an operand.
pub(crate) fn word_of(variables: &[Variable], values: &[i128], atom: Atom) -> Word
    requires values { AreValues variables.now values.now }
    requires words { All (λ x. IsTy x.ty) variables.now }
    requires sound { is_some (sound.atom_type (types_of variables.now) atom) ≡ true }
    ensures word { result ≡ stores.word_of (words_of variables.now values.now) atom }
    ensures ty { sound.atom_type (types_of variables.now) atom ≡ Some result.ty }
    ensures sound { sound.IsSoundWord result }
{
    match atom {
        Atom::Var(variable) => word_at(variables, values, variable),
        Atom::Lit(ty, value) => Word { ty, value },
    }
}
