// The adder and the comparison of binary words against the integers, by hand for every short word.

ghost use Rattle.std.specs.Prelude.{◌<◌, ◌≤◌};

use std::alloc::{AllocError, Global};
use std::process::Abort;
use std::test::Fail;
use tcl_bits::{add, is_less};

// The lowest `width` bits of a number.
fn word(alloc: Global, width: u32, number: u32) -> Result<Vec<bool>, AllocError> {
    let mut bits = Vec::new(alloc);
    let mut rest = number;
    for _ in 0..width {
        bits.push(rest % 2 == 1)?;
        rest /= 2;
    }
    Ok(bits)
}

// The number of `width` bits, at most 4, that is read as signed.
fn signed(width: u32, number: u32) -> i32
    requires narrow { width ≤ 4 }
    requires small { number < 16 }
{
    if 2 * number >= 1u32 << width {
        number as i32 - (1i32 << width)
    } else {
        number as i32
    }
}

fn check(rt: &impl Abort, alloc: Global, width: u32, x: u32, y: u32) -> Result<(), AllocError>
    requires narrow { width ≤ 4 }
    requires first { x < 16 }
    requires second { y < 16 }
{
    let sum = is_sum_right(alloc, width, x, y, 0)?;
    expect(rt, sum, "sum", width, x, y);
    let carried = is_sum_right(alloc, width, x, y, 1)?;
    expect(rt, carried, "sum with a carry", width, x, y);
    let unsigned = is_below(alloc, false, width, x, y)?;
    expect(rt, unsigned == Some(x < y), "comparison", width, x, y);
    let signed_below = is_below(alloc, true, width, x, y)?;
    let wanted = signed(width, x) < signed(width, y);
    expect(
        rt,
        signed_below == Some(wanted),
        "signed comparison",
        width,
        x,
        y,
    );
    Ok(())
}

// What the comparison of two words answers.
fn is_below(
    alloc: Global,
    is_signed: bool,
    width: u32,
    x: u32,
    y: u32,
) -> Result<Option<bool>, AllocError> {
    let xs = word(alloc, width, x)?;
    let ys = word(alloc, width, y)?;
    Ok(less(is_signed, &xs, &ys))
}

fn expect(rt: &impl Abort, is_right: bool, what: &str, width: u32, x: u32, y: u32) {
    assert!(rt; is_right, "the {what} of {x} and {y} at {width} bits");
}

// Whether the bits and the carry of the sum are those of the integers.
fn is_sum_right(alloc: Global, width: u32, x: u32, y: u32, carry: u32) -> Result<bool, AllocError>
    requires narrow { width ≤ 4 }
    requires first { x < 16 }
    requires second { y < 16 }
    requires carried { carry < 2 }
{
    let xs = word(alloc, width, x)?;
    let ys = word(alloc, width, y)?;
    if xs.len() != ys.len() {
        return Ok(false);
    }
    let total = x + y + carry;
    let sum = add(alloc, &xs, &ys, carry == 1)?;
    let expected = word(alloc, width, total)?;
    Ok(sum.bits.as_slice() == expected.as_slice() && sum.carry == (total >> width == 1))
}

// Whether the first word is below the second, where they are of one length.
fn less(is_signed: bool, xs: &[bool], ys: &[bool]) -> Option<bool> {
    if xs.len() == ys.len() {
        Some(is_less(is_signed, xs, ys))
    } else {
        None
    }
}

// Every pair of operands of one to four bits, against the integers.
#[test]
fn all_short_operands(rt: HostRuntime) -> Result<(), Fail> {
    for width in 1..5u32 {
        for x in 0..16u32 {
            for y in 0..16u32 {
                if x >> width == 0 && y >> width == 0 {
                    check(&rt, rt.alloc(), width, x, y)?;
                }
            }
        }
    }
    Ok(())
}
