//! Workloads whose time is taken from outside. The words on the command line choose one and its sizes, and what is printed
//! are counts: the answer, clauses, terms, bytes. A workload makes its text, and only `main` prints.
#![tactic(auto)]

mod blasting;
mod butterflies;
mod checking;
mod circuit;
mod formula;
mod membership;
mod plain;
mod products;
mod reading;
mod reducing;
mod searching;
mod walking;

use formula::Formula;
use reading::Kind;
use std::alloc::{AllocError, Global};
use std::process::ExitCode;
use std::{env, io};

// What is to be done.
enum Workload {
    // Search for values that make a formula true, until so many clauses are derived.
    Search(Formula, u32),
    // Print a formula for other solvers.
    Dimacs(Formula),
    // Parse a text of so many bytes.
    Parse(Kind, u32),
    // Reduce a polynomial of so many terms by so many definitions.
    Reduce(u32, u32),
    // Search for a claim of so many equations and that degree, over so many products.
    Member(u32, u32, u32),
    // Check a log of so many lines, each a chain of so many clauses.
    Check(u32, u32),
    // Go through ten instructions over all values of two words of so many bits.
    Walk(u32),
    // The same loop, its ten instructions written out.
    Plain(u32),
    // Decide a claim behind the same instructions in all assignments of the two words.
    Enumerate(u32),
    // Make the circuit of the product of two words of so many bits so many times.
    Gates(u32, u32),
    // Make the clauses of a product of two words of so many bits, so many times.
    Blast(u32, u32),
    // Reduce the algebraic goals of so many butterflies.
    Butterflies(u32),
}

fn workload_of(words: &[&str]) -> Option<Workload> {
    let (name, rest) = words.split_first()?;
    match *name {
        "search" => Some(Workload::Search(Formula::of_words(rest)?, searching::BUDGET)),
        "learn" => {
            let (budget, rest) = rest.split_first()?;
            let formula = Formula::of_words(rest)?;
            Some(Workload::Search(formula, budget.parse().ok()?))
        }
        "dimacs" => Some(Workload::Dimacs(Formula::of_words(rest)?)),
        "parse" => {
            let (kind, size) = pair_of(rest)?;
            Some(Workload::Parse(Kind::of_word(kind)?, size.parse().ok()?))
        }
        "reduce" => {
            let (count, definitions) = sizes_of(rest)?;
            Some(Workload::Reduce(count, definitions))
        }
        "member" => {
            let (count, exponent, budget) = triple_of(rest)?;
            Some(Workload::Member(count, exponent, budget))
        }
        "check" => {
            let (lines, length) = sizes_of(rest)?;
            Some(Workload::Check(lines, length))
        }
        "walk" => Some(Workload::Walk(size_of(rest)?)),
        "plain" => Some(Workload::Plain(size_of(rest)?)),
        "enumerate" => Some(Workload::Enumerate(size_of(rest)?)),
        "gates" => {
            let (width, count) = sizes_of(rest)?;
            Some(Workload::Gates(width, count))
        }
        "blast" => {
            let (width, times) = sizes_of(rest)?;
            Some(Workload::Blast(width, times))
        }
        "butterflies" => Some(Workload::Butterflies(size_of(rest)?)),
        _ => None,
    }
}

fn pair_of<'a>(words: &[&'a str]) -> Option<(&'a str, &'a str)> {
    match *words {
        [first, second] => Some((first, second)),
        _ => None,
    }
}

fn sizes_of(words: &[&str]) -> Option<(u32, u32)> {
    let (first, second) = pair_of(words)?;
    Some((first.parse().ok()?, second.parse().ok()?))
}

fn triple_of(words: &[&str]) -> Option<(u32, u32, u32)> {
    match *words {
        [first, second, third] => Some((
            first.parse().ok()?,
            second.parse().ok()?,
            third.parse().ok()?,
        )),
        _ => None,
    }
}

fn size_of(words: &[&str]) -> Option<u32> {
    match *words {
        [word] => word.parse().ok(),
        _ => None,
    }
}

/// The workload that the command line names, if there is one.
fn chosen(rt: &HostRuntime, alloc: Global) -> io::Result<Option<Workload>> {
    let args: Vec<String> = env::args(rt)?.skip(1).collect(alloc)?;
    let words: Vec<&str> = args.iter().map(|word| word.as_str()).collect(alloc)?;
    Ok(workload_of(&words))
}

/// What is printed of a workload.
fn text_of(alloc: Global, workload: Workload) -> Result<String, AllocError> {
    match workload {
        Workload::Search(formula, budget) => searching::search_text(alloc, formula, budget),
        Workload::Dimacs(formula) => searching::formula_text(alloc, formula),
        Workload::Parse(kind, size) => reading::parse_text(alloc, kind, size),
        Workload::Reduce(count, definitions) => reducing::reduce_text(alloc, count, definitions),
        Workload::Member(count, exponent, budget) => {
            membership::membership_text(alloc, count, exponent, budget)
        }
        Workload::Check(lines, length) => checking::check_text(alloc, lines, length),
        Workload::Walk(width) => walking::walk_text(alloc, width),
        Workload::Plain(width) => plain::plain_text(alloc, width),
        Workload::Enumerate(width) => walking::enumerate_text(alloc, width),
        Workload::Gates(width, count) => products::products_text(alloc, width, count),
        Workload::Blast(width, times) => blasting::blast_text(alloc, width, times),
        Workload::Butterflies(count) => butterflies::butterflies_text(alloc, count),
    }
}

fn main(rt: HostRuntime) -> io::Result<ExitCode> {
    let alloc = rt.alloc();
    match chosen(&rt, alloc)? {
        Some(workload) => {
            let text = text_of(alloc, workload)?;
            print!(rt; "{text}")?;
            Ok(ExitCode::SUCCESS)
        }
        None => {
            println!(rt; "no such workload")?;
            Ok(ExitCode::from(8))
        }
    }
}
