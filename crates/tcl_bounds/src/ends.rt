// Sums, products and floors of the ends of intervals. A product of two unsigned words of 64 bits does not fit an `i128`,
// so such products are made in `u128`.

ghost use Rattle.std.specs.Prelude.{◌≡◌, ◌<◌, ◌≤◌, ◌^◌, ◌≤ℤ◌, ◌*ℤ◌, ◌+ℤ◌, ◌-ℤ◌, ℤ, pos, false, unsigned_abs};
ghost use Rattle.std.specs.Int.{int_div_euclid};
ghost use Rattle.tcl_num.specs.Range.{InRange};
ghost use Rattle.tcl_lang.specs.Types.{IsTy};
ghost use Rattle.tcl_lang.specs.Operands.{IsWordValue};
ghost use Rattle.tcl_bounds.specs.Conditions.{HasWordEnds, HasSmallEnds, HasEndsIn};
ghost use Rattle.tcl_bounds.specs.Intervals as intervals;
ghost use Rattle.tcl_bounds.specs.Rows as rows;

use crate::interval::Interval;
use tcl_lang::Ty;
use tcl_num::{least_value, power_of_two, values_end};

/// Whether no integer lies in the interval.
pub(crate) fn is_empty(i: Interval) -> bool
    ensures { result ≡ intervals.is_empty i }
{
    i.greatest < i.least
}

/// The values of a type.
pub(crate) fn whole(ty: Ty) -> Interval
    requires { IsTy ty }
    ensures { result ≡ intervals.whole ty }
{
    Interval {
        least: least_value(ty.signed, ty.width),
        greatest: values_end(ty.signed, ty.width) - 1,
    }
}

/// Whether both ends are values of the type.
pub(crate) fn is_within(ty: Ty, i: Interval) -> bool
    requires { IsTy ty }
    ensures { result ≡ intervals.is_within ty i }
{
    least_value(ty.signed, ty.width) <= i.least && i.greatest < values_end(ty.signed, ty.width)
}

/// The interval, where both ends are values of the type.
pub(crate) fn if_within(ty: Ty, i: Interval) -> Option<Interval>
    requires { IsTy ty }
    ensures { result ≡ rows.if_within ty i }
{
    if is_within(ty, i) { Some(i) } else { None }
}

/// What lies in both.
pub(crate) fn meet(i: Interval, j: Interval) -> Interval
    ensures { result ≡ intervals.meet i j }
{
    Interval {
        least: i.least.max(j.least),
        greatest: i.greatest.min(j.greatest),
    }
}

/// From the least to the greatest end of the two.
pub(crate) fn hull(i: Interval, j: Interval) -> Interval
    ensures { result ≡ intervals.hull i j }
{
    Interval {
        least: i.least.min(j.least),
        greatest: i.greatest.max(j.greatest),
    }
}

/// The sum of two values of words.
fn sum(a: i128, b: i128) -> i128
    requires first { IsWordValue a }
    requires second { IsWordValue b }
    ensures { result ≡ a +ℤ b }
{
    a + b
}

/// The sum of three values of words.
fn sum_three(a: i128, b: i128, c: i128) -> i128
    requires first { IsWordValue a }
    requires second { IsWordValue b }
    requires third { IsWordValue c }
    ensures { result ≡ a +ℤ b +ℤ c }
{
    a + b + c
}

/// The difference of two values of words.
fn difference(a: i128, b: i128) -> i128
    requires first { IsWordValue a }
    requires second { IsWordValue b }
    ensures { result ≡ a -ℤ b }
{
    a - b
}

/// A value of a word less two others.
fn difference_three(a: i128, b: i128, c: i128) -> i128
    requires first { IsWordValue a }
    requires second { IsWordValue b }
    requires third { IsWordValue c }
    ensures { result ≡ a -ℤ b -ℤ c }
{
    a - b - c
}

/// The sums of two intervals.
pub(crate) fn sum_of(i: Interval, j: Interval) -> Interval
    requires first { HasWordEnds i }
    requires second { HasWordEnds j }
    ensures { result ≡ intervals.sum_of i j }
{
    Interval {
        least: sum(i.least, j.least),
        greatest: sum(i.greatest, j.greatest),
    }
}

/// The sums of three intervals.
pub(crate) fn sum_with(i: Interval, j: Interval, k: Interval) -> Interval
    requires first { HasWordEnds i }
    requires second { HasWordEnds j }
    requires third { HasWordEnds k }
    ensures { result ≡ intervals.sum_of (intervals.sum_of i j) k }
{
    Interval {
        least: sum_three(i.least, j.least, k.least),
        greatest: sum_three(i.greatest, j.greatest, k.greatest),
    }
}

/// The differences of two intervals.
pub(crate) fn difference_of(i: Interval, j: Interval) -> Interval
    requires first { HasWordEnds i }
    requires second { HasWordEnds j }
    ensures { result ≡ intervals.difference_of i j }
{
    Interval {
        least: difference(i.least, j.greatest),
        greatest: difference(i.greatest, j.least),
    }
}

/// The differences of an interval and two others.
pub(crate) fn difference_with(i: Interval, j: Interval, k: Interval) -> Interval
    requires first { HasWordEnds i }
    requires second { HasWordEnds j }
    requires third { HasWordEnds k }
    ensures { result ≡ intervals.difference_of (intervals.difference_of i j) k }
{
    Interval {
        least: difference_three(i.least, j.greatest, k.greatest),
        greatest: difference_three(i.greatest, j.least, k.least),
    }
}

/// The value of a word times 2 ^ k.
fn shifted(n: i128, k: u32) -> i128
    requires word { IsWordValue n }
    requires amount { k ≤ 63 }
    ensures { result ≡ n *ℤ pos (2 ^ k) }
{
    n * power_of_two(k)
}

/// An interval times 2 ^ k.
pub(crate) fn times(k: u32, i: Interval) -> Interval
    requires words { HasWordEnds i }
    requires amount { k ≤ 63 }
    ensures { result ≡ intervals.times k i }
{
    Interval {
        least: shifted(i.least, k),
        greatest: shifted(i.greatest, k),
    }
}

/// The word of the high part h and the low part l, which has `width` bits.
fn joined(h: i128, l: i128, width: u32) -> i128
    requires high { IsWordValue h }
    requires low { IsWordValue l }
    requires narrow { width ≤ 32 }
    ensures { result ≡ pos (2 ^ width) *ℤ h +ℤ l }
{
    shifted(h, width) + l
}

/// The words of high parts and low parts of `width` bits.
pub(crate) fn joined_of(width: u32, h: Interval, l: Interval) -> Interval
    requires high { HasWordEnds h }
    requires low { HasWordEnds l }
    requires narrow { width ≤ 32 }
    ensures { result ≡ rows.joined_of width h l }
{
    Interval {
        least: joined(h.least, l.least, width),
        greatest: joined(h.greatest, l.greatest, width),
    }
}

/// The product of two ends whose magnitude is at most 2 ^ 63.
fn product(a: i128, b: i128) -> i128
    requires first { unsigned_abs a ≤ 2 ^ 63 }
    requires second { unsigned_abs b ≤ 2 ^ 63 }
    ensures { result ≡ a *ℤ b }
{
    a * b
}

/// The interval of the products of an end and the ends of an interval.
fn corners(n: i128, j: Interval) -> Interval
    requires first { unsigned_abs n ≤ 2 ^ 63 }
    requires second { HasSmallEnds j }
    ensures { result ≡ intervals.hull (intervals.point (n *ℤ j.least)) (intervals.point (n *ℤ j.greatest)) }
{
    let one = product(n, j.least);
    let other = product(n, j.greatest);
    Interval {
        least: one.min(other),
        greatest: one.max(other),
    }
}

/// The products of two intervals with ends of magnitude at most 2 ^ 63.
pub(crate) fn product_of(i: Interval, j: Interval) -> Interval
    requires first { HasSmallEnds i }
    requires second { HasSmallEnds j }
    ensures { result ≡ intervals.product_of i j }
{
    hull(corners(i.least, j), corners(i.greatest, j))
}

/// The product of two ends that are not negative.
fn unsigned_product(a: i128, b: i128) -> u128
    requires first { InRange false 64 a }
    requires second { InRange false 64 b }
    ensures { pos result ≡ a *ℤ b }
{
    (a as u128) * (b as u128)
}

/// The floors of the ends by 2 ^ k.
pub(crate) fn floors_of(k: u32, i: Interval) -> Interval
    requires { k ≤ 64 }
    ensures { result ≡ intervals.floors_of k i }
{
    let step = power_of_two(k);
    Interval {
        least: i.least.div_euclid(step),
        greatest: i.greatest.div_euclid(step),
    }
}

/// The interval of numbers that are not negative, where it lies in the type.
fn natural_within(ty: Ty, low: u128, high: u128) -> Option<Interval>
    requires of_words { IsTy ty }
    requires unsigned { ty.signed ≡ false }
    requires order { low ≤ high }
    ensures { result ≡ rows.if_within ty (intervals.between (pos low) (pos high)) }
{
    if high < (1u128 << ty.width) {
        Some(Interval {
            least: low as i128,
            greatest: high as i128,
        })
    } else {
        None
    }
}

/// The floor of a number that is not negative.
fn natural_floor(n: u128, k: u32) -> i128
    requires positive { 0 < k }
    requires narrow { k ≤ 64 }
    ensures { result ≡ int_div_euclid (pos n) (pos (2 ^ k)) }
{
    (n / (1u128 << k)) as i128
}

/// The products of two intervals of the type, where they lie in the type.
pub(crate) fn product_within(ty: Ty, a: Interval, b: Interval) -> Option<Interval>
    requires of_words { IsTy ty }
    requires first { HasEndsIn ty a }
    requires second { HasEndsIn ty b }
    ensures { result ≡ rows.if_within ty (intervals.product_of a b) }
{
    if ty.signed {
        if_within(ty, product_of(a, b))
    } else {
        natural_within(
            ty,
            unsigned_product(a.least, b.least),
            unsigned_product(a.greatest, b.greatest),
        )
    }
}

/// The floors of the products of two intervals of the type.
pub(crate) fn product_floors(ty: Ty, a: Interval, b: Interval) -> Interval
    requires of_words { IsTy ty }
    requires first { HasEndsIn ty a }
    requires second { HasEndsIn ty b }
    ensures { result ≡ intervals.floors_of ty.width (intervals.product_of a b) }
{
    if ty.signed {
        floors_of(ty.width, product_of(a, b))
    } else {
        Interval {
            least: natural_floor(unsigned_product(a.least, b.least), ty.width),
            greatest: natural_floor(unsigned_product(a.greatest, b.greatest), ty.width),
        }
    }
}

/// The greatest remainder by 2 ^ k.
fn top_of(k: u32) -> i128
    requires { k ≤ 64 }
    ensures { result ≡ pos (2 ^ k) -ℤ pos 1 }
{
    power_of_two(k) - 1
}

/// The remainder of n by 2 ^ k, from its floor.
fn remainder_of(n: i128, k: u32) -> i128
    requires { k ≤ 64 }
    ensures { (q : ℤ) → int_div_euclid n (pos (2 ^ k)) ≡ q → result ≡ n -ℤ pos (2 ^ k) *ℤ q }
{
    n.rem_euclid(power_of_two(k))
}

/// The remainders by 2 ^ k, where the ends have one floor, or all remainders.
pub(crate) fn remainders_of(k: u32, i: Interval) -> Interval
    requires { k ≤ 64 }
    ensures { result ≡ rows.remainders_of k i }
{
    let step = power_of_two(k);
    if i.least.div_euclid(step) == i.greatest.div_euclid(step) {
        Interval {
            least: remainder_of(i.least, k),
            greatest: remainder_of(i.greatest, k),
        }
    } else {
        Interval {
            least: 0,
            greatest: top_of(k),
        }
    }
}

/// The conjunction of two words.
pub(crate) fn and_of(signed: bool, a: Interval, b: Interval) -> Option<Interval>
    ensures { result ≡ rows.and_of signed a b }
{
    if signed {
        None
    } else {
        Some(Interval {
            least: 0,
            greatest: a.greatest.min(b.greatest),
        })
    }
}

/// Every bit flipped.
pub(crate) fn flipped_of(ty: Ty, a: Interval) -> Interval
    requires of_words { IsTy ty }
    requires words { HasWordEnds a }
    ensures { result ≡ rows.flipped_of ty a }
{
    if ty.signed {
        turned(-1, a)
    } else {
        turned(top_of(ty.width), a)
    }
}

/// An interval of distances from the top.
fn turned(top: i128, a: Interval) -> Interval
    requires top { IsWordValue top }
    requires words { HasWordEnds a }
    ensures { result ≡ intervals.between (top -ℤ a.greatest) (top -ℤ a.least) }
{
    Interval {
        least: difference(top, a.greatest),
        greatest: difference(top, a.least),
    }
}
