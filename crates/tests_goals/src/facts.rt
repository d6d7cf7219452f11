// Free variables and free bits of facts of goals. The reference, a second implementation of the language, made the table.

use crate::expected::expect;
use crate::forms::{fact_of, form_of};
use std::alloc::{AllocError, Global};
use std::test::Fail;
use tcl_goals::{Fact, Lemmas, free_bits, free_variables};
use tcl_lang::Ssa;

// A line a fact: its program, its goal, the routes of which it is the fact, the places of the hypotheses and of the uses, the free
// variables, and the count of free bits.
pub(crate) const FACTS: &str = "
0 0 both 1 - 0 8
0 1 both 1,2 2 0 8
0 2 cut 3 - 1 8
0 2 whole 1,2,3 2 0 8
1 0 both - - 0 8
3 0 both - 2 0,1 16
4 0 both - 0 0 4
5 0 cut - - 0 8
5 0 whole - 1 0,1 12
5 1 cut 2 - 0 8
5 1 whole 2 1 0,1 12
5 2 cut 2,3 - 0 8
5 2 whole 2,3 1 0,1 12
5 3 cut - - 1 4
5 3 whole 2,3,4 1 0,1 12
6 0 both 1,2 - 0 8
6 1 both 1,2,3 3 0 8
6 2 cut 4 - 1 8
6 2 whole 1,2,3,4 3 0 8
6 3 cut 4,5 5 1 8
6 3 whole 1,2,3,4,5 3,5 0 8
7 0 both - - 0 8
7 1 both 1 - 0 8
7 2 both 1,2 2 0 8
7 3 both 1,2,3 2 0 8
7 4 cut 3,4 - 1 8
7 4 whole 1,2,3,4 2 0 8
7 5 cut 3,4,5 5 1 8
7 5 whole 1,2,3,4,5 2,5 0 8
8 0 both - - - 0
8 1 cut - - - 0
8 1 whole 0 - - 0
9 0 both 3 - 0,1 16
9 1 both 3,4 4 0,1,2 24
9 2 both 3,4,5 4,5 0,1,2 24
9 3 cut 6 7 1,4 16
9 3 whole 3,4,5,6 4,5,7 0,1,2 24
9 4 cut 6,8 7,8 1,4 16
9 4 whole 3,4,5,6,8 4,5,7,8 0,1,2 24
10 0 both - - 0 8
10 1 both 1 1,2 0 8
10 2 cut 3 - 0,2 16
10 2 whole 1,3 1,2 0 8
10 3 cut 3,4 4 0,2 16
10 3 whole 1,3,4 1,2,4 0 8
10 4 cut 3,4,5 4 0,2 16
10 4 whole 1,3,4,5 1,2,4 0 8
11 0 both - 1 0 16
11 1 cut 2 3 0,1,2 48
11 1 whole 2 1,3 0 16
12 0 both - 3 0,1,2 17
12 1 both 4 3 0,1,2 17
12 2 cut 5,6 7,8 1,2,3 24
12 2 whole 4,5,6 3,7,8 0,1,2 17
13 0 both - - 0 8
13 1 both 1 - 0 8
14 0 both 1 - 0 32
14 1 cut 2 - 0 32
14 1 whole 1,2 - 0 32
15 0 both 3 2 0,1 16
15 1 both 3,4 2,4 0,1 16
15 2 cut 5 6 0,1,4,5 32
15 2 whole 3,4,5 2,4,6 0,1,5 24
15 3 cut 5,7 6,7 0,1,4,5 32
15 3 whole 3,4,5,7 2,4,6,7 0,1,5 24
16 0 both - 1,2 0 8
16 1 both 3 1,2 0 8
16 2 both 3,4 1,2 0 8
16 3 cut 4,5 - 2 8
16 3 whole 3,4,5 1,2 0 8
16 4 cut 4,5,6 6 2 8
16 4 whole 3,4,5,6 1,2,6 0 8
17 0 both - - 0 8
18 0 both - 1 0,1 9
18 1 both 2 1,2 0,1 9
18 2 cut 2,3 1,2 0,1 9
18 2 whole 2,3 1,2,3 0,1 9
18 3 cut 4 5 2,3 16
18 3 whole 2,3,4 1,2,3,5 0,1 9
19 0 both - - 0 8
19 1 both 1 1 0 8
19 2 both 1,2 1,2 0 8
19 3 cut 3 - 2 8
19 3 whole 1,2,3 1,2 0 8
20 0 both 2,3 - 0,1 16
20 1 both 2,3,4 4 0,1 16
20 2 both 2,3,4,5 4 0,1 16
20 3 cut 5,6 - 0,1,2 24
20 3 whole 2,3,4,5,6 4 0,1 16
20 4 cut 5,6,7 7 0,1,2 24
20 4 whole 2,3,4,5,6,7 4,7 0,1 16
20 5 cut 5,6,7,8 7 0,1,2 24
20 5 whole 2,3,4,5,6,7,8 4,7 0,1 16
21 0 both - 2 0,1 128
22 0 both - 0,1,2 0,1 8
22 1 both 3 0,1,2 0,1 8
22 2 cut 4 - 2 8
22 2 whole 3,4 0,1,2 0,1 8
23 0 both 2 - 0,1 5
23 1 cut 3 - 0,1 5
23 1 whole 2,3 - 0,1 5
23 2 cut 3,4 - 0,1 5
23 2 whole 2,3,4 - 0,1 5
24 0 both - - 0 8
24 1 both 1 2 0 8
24 2 cut 3 4 0,1 16
24 2 whole 1,3 2,4 0 8
24 3 cut 5 - 0,2 16
24 3 whole 1,3,5 2,4 0 8
25 0 both 2 - 0 8
25 1 cut - - 1 8
25 1 whole 2,3 3 0,1 16
25 2 cut 2,3 3 0 8
25 2 whole 2,3,4 3,4 0,1 16
25 3 cut 5 - 2 8
25 3 whole 2,3,4,5 3,4 0,1 16
25 4 cut - - 3 8
25 4 whole 2,3,4,5,6 3,4,6 0,1 16
25 5 cut 5,6 6 2 8
25 5 whole 2,3,4,5,6,7 3,4,6,7 0,1 16
26 0 both - - 0 8
26 1 both 1 1 0 8
26 2 cut 2,3 - 0,1 16
26 2 whole 1,2,3 1 0 8
26 3 cut 2,3,4 4 0,1 16
26 3 whole 1,2,3,4 1,4 0 8
27 0 both 2 - 0,1 8
27 1 both 2,3 3 0,1 8
27 2 cut 4,5 - 0,1,2 12
27 2 whole 2,3,4,5 3 0,1 8
27 3 cut 4,5,6 - 0,1,2 12
27 3 whole 2,3,4,5,6 3 0,1 8
28 0 both - - - 0
28 1 cut - - - 0
28 1 whole 1 - - 0
28 2 cut - - - 0
28 2 whole 1,2 - - 0
28 3 cut - - - 0
28 3 whole 1,2,3 - - 0
29 0 both - 3,4 0,1,2 24
29 1 both 5 3,4 0,1,2 24
29 2 cut 6 - 4 8
29 2 whole 5,6 3,4 0,1,2 24
29 3 cut 6,7 7 4 8
29 3 whole 5,6,7 3,4,7 0,1,2 24
29 4 cut 5 - 2,3,5,6 18
29 4 whole 5,6,7,8 3,4,7 0,1,2 24
";

/// A line of the table: the lists of numbers are as the line has them.
#[derive(Drop)]
pub(crate) struct Row<'a> {
    pub(crate) program: usize,
    pub(crate) goal: u32,
    pub(crate) route: &'a str,
    hyps: &'a str,
    uses: &'a str,
    free: &'a str,
    bits: usize,
}

/// The parts of a line, where it has all.
pub(crate) fn row_of(line: &str) -> Option<Row<'_>> {
    let mut words = line.split(' ');
    Some(Row {
        program: words.next()?.parse().ok()?,
        goal: words.next()?.parse().ok()?,
        route: words.next()?,
        hyps: words.next()?,
        uses: words.next()?,
        free: words.next()?,
        bits: words.next()?.parse().ok()?,
    })
}

// Numbers between commas; `-` is none. No table has the greatest number, which stands for what is no number.
fn numbers(alloc: Global, text: &str) -> Result<Vec<u32>, AllocError> {
    let mut found = Vec::new(alloc);
    if text == "-" {
        return Ok(found);
    }
    for word in text.split(',') {
        found.push(word.parse().unwrap_or(u32::MAX))?;
    }
    Ok(found)
}

/// The fact of a row.
pub(crate) fn fact_of_row(alloc: Global, row: &Row) -> Result<Fact, AllocError> {
    let hyps = numbers(alloc, row.hyps)?;
    let uses = numbers(alloc, row.uses)?;
    fact_of(alloc, row.goal, hyps.as_slice(), uses.as_slice())
}

// Whether these variables of the fact are free.
fn are_free(alloc: Global, form: &Ssa, fact: &Fact, free: &str) -> Result<bool, AllocError> {
    let found = free_variables(alloc, form, &Lemmas::new(alloc), fact)?;
    Ok(found.as_slice() == numbers(alloc, free)?.as_slice())
}

fn count_of_bits(alloc: Global, form: &Ssa, fact: &Fact) -> Result<usize, AllocError> {
    let bits = free_bits(alloc, form, &Lemmas::new(alloc), fact)?;
    Ok(bits.len())
}

fn is_right_row(alloc: Global, row: &Row) -> Result<bool, Fail> {
    let form = form_of(alloc, row.program)?;
    Ok(is_right(alloc, &form, row)?)
}

fn is_right(alloc: Global, form: &Ssa, row: &Row) -> Result<bool, AllocError> {
    let fact = fact_of_row(alloc, row)?;
    Ok(are_free(alloc, form, &fact, row.free)? && count_of_bits(alloc, form, &fact)? == row.bits)
}

#[test]
fn free_variables_of_facts(rt: HostRuntime) -> Result<(), Fail> {
    for line in FACTS.trim().lines() {
        let row = row_of(line).ok_or("a row of facts")?;
        let is_so = is_right_row(rt.alloc(), &row)?;
        expect(&rt, "free variables and bits", row.program, row.goal, is_so);
    }
    Ok(())
}
