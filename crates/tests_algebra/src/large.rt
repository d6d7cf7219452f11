//! A fact of as many instructions as a program can have.

use crate::facts::equations_of;
use std::alloc::{AllocError, Global};
use std::process::Abort;
use std::test::Fail;

// Adds a line many times.
fn repeat(text: &mut String, line: &str, count: u32) -> Result<(), AllocError> {
    for _ in 0..count {
        text.push_str(line)?;
    }
    Ok(())
}

// A program of 4,096 instructions and 300 congruences.
fn large(alloc: Global) -> Result<String, AllocError> {
    let mut text = String::new(alloc);
    text.push_str("in u8 a\nin u8 b\n")?;
    repeat(&mut text, "pre alg a*b = b*a mod 2**40\n", 300)?;
    repeat(&mut text, "adds u8 c x a b\n", 4000)?;
    repeat(&mut text, "add u8 x x b\n", 96)?;
    text.push_str("assert alg x = b\nend\n")?;
    Ok(text)
}

// A definition of each instruction, an equation of each congruence, a square of each carry, and the claim.
#[test]
fn equations_of_a_large_fact(rt: HostRuntime) -> Result<(), Fail> {
    let alloc = rt.alloc();
    let text = large(alloc)?;
    let answer = equations_of(alloc, text.as_str(), 96, true)?;
    let count = answer.as_str().lines().count();
    assert_eq!(&rt; count, 4096 + 300 + 4000 + 1);
    Ok(())
}
