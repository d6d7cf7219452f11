//! The value of a type that is congruent to an integer, and the test of a type's values.

ghost use Rattle.std.specs.Prelude.{◌≡◌, ℤ, ◌↔◌, IsTrue};
ghost use Rattle.tcl_lang.specs.Types.{IsTy, InType, IsWrap, is_in_type, wrap_of};

use crate::ty::Ty;

/// The one value of the type that is congruent to `n` modulo 2 to the power of its width.
pub fn wrap(ty: Ty, n: i128) -> i128
    requires { IsTy ty }
    ensures value { result ≡ wrap_of ty n }
    ensures wrapped { IsWrap ty n result }
    ensures only { (v : ℤ) → IsWrap ty n v → v ≡ result }
{
    tcl_num::wrap_to(ty.signed, ty.width, n)
}

/// Whether `n` is a value of the type.
pub fn in_type(ty: Ty, n: i128) -> bool
    requires { IsTy ty }
    ensures in_type { IsTrue result ↔ InType ty n }
    ensures test { result ≡ is_in_type ty n }
{
    tcl_num::in_range(ty.signed, ty.width, n)
}
