// Logs of resolutions and their check.

use std::alloc::{AllocError, Global};
use tcl_cnf::{Clause, Cnf, Lit, LogAnswer, LogLines, check_log};

/// Checks a log of so many lines, each a chain of so many clauses, and says the answer.
///
/// Each given clause says that a variable implies the next one, and the first variable is true. A line derives the variable
/// that lies so many places on, and the last line the empty clause.
pub(crate) fn check_text(alloc: Global, lines: u32, length: u32) -> Result<String, AllocError> {
    let steps = lines.saturating_mul(length);
    let cnf = implications(alloc, steps)?;
    let log = chains(alloc, steps, lines, length)?;
    let mut text = answer_text(alloc, check_log(alloc, &cnf, &log)?)?;
    write!(&mut text, "clauses {} lines {}\n", cnf.len(), log.len())?;
    Ok(text)
}

fn answer_text(alloc: Global, answer: LogAnswer) -> Result<String, AllocError> {
    match answer {
        LogAnswer::BadLine(line) => format!(in alloc; "bad line {line}\n"),
        LogAnswer::NoEnd => String::from_str(alloc, "no end\n"),
        LogAnswer::Refutes => String::from_str(alloc, "refutes\n"),
    }
}

/// Clause 0 says that variable 0 is true, clause k that variable k - 1 implies variable k, and the last that the last is false.
fn implications(alloc: Global, steps: u32) -> Result<Cnf, AllocError> {
    let mut cnf = Cnf::new(alloc);
    push(alloc, &mut cnf, &[variable(0)])?;
    for k in 0..steps {
        let next = variable(k.saturating_add(1));
        push(alloc, &mut cnf, &[variable(k).negation(), next])?;
    }
    push(alloc, &mut cnf, &[variable(steps).negation()])?;
    Ok(cnf)
}

fn variable(number: u32) -> Lit {
    Lit::from_number(number.wrapping_mul(2))
}

fn push(alloc: Global, cnf: &mut Cnf, lits: &[Lit]) -> Result<(), AllocError> {
    if let Some(clause) = Clause::from_lits(alloc, lits)? {
        cnf.push(clause)?;
    }
    Ok(())
}

fn chains(alloc: Global, steps: u32, lines: u32, length: u32) -> Result<LogLines, AllocError> {
    let mut log = LogLines::new(alloc);
    let mut derived = 0;
    for line in 0..lines {
        let chain = chain(alloc, derived, line.saturating_mul(length), length)?;
        log.push(&chain)?;
        derived = steps.saturating_add(2).saturating_add(line);
    }
    log.push(&[derived, steps.saturating_add(1)])?;
    Ok(log)
}

/// The number of the clause of a variable, and those of the implications behind it.
fn chain(alloc: Global, derived: u32, from: u32, length: u32) -> Result<Vec<u32>, AllocError> {
    let mut chain = Vec::new(alloc);
    chain.push(derived)?;
    for k in 0..length {
        chain.push(from.saturating_add(k).saturating_add(1))?;
    }
    Ok(chain)
}
