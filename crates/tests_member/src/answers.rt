// Answers of searches as texts.

ghost use Rattle.std.specs.Prelude.{IfOk, IsTrue};
ghost use Rattle.tcl_poly.specs.Polynomial as p;
ghost use Rattle.tcl_reduce.specs.Answer.{definitions_of};
ghost use Rattle.tcl_reduce.specs.Reduction.{reduced_of};
ghost use Rattle.tcl_member.specs.Fit.{LeavesRest};

use crate::counter::Counter;
use crate::polynomials::write_terms;
use std::alloc::{AllocError, Global};
use std::test::Fail;
use tcl_member::{Member, Note, are_fit, member};
use tcl_reduce::{Equations, Plain, plain};
use tcl_ring::Ring;

/// Whether plain reduction leaves something of the claim.
fn leaves_rest<R: Ring + Copy>(alloc: Global, equations: &Equations<R>) -> Result<bool, Fail>
    ensures { IfOk result (λ left. IsTrue left → LeavesRest (reduced_of (R.modulus_of equations.now.ring) (definitions_of (R.amount equations.now.ring) equations.now.defs) (p.terms_of (R.amount equations.now.ring) equations.now.claim))) }
{
    match plain(alloc, equations.ring(), equations.defs(), equations.claim()) {
        Plain::Zero(_, _) => Ok(false),
        Plain::Rest(_, _, _) => Ok(true),
        Plain::Wide(_) => Err("the claim of a test is not wide".into()),
        Plain::Large(_, _) => Err("the claim of a test is not large".into()),
        Plain::Memory => Err(AllocError.into()),
    }
}

/// The answer for equations that can be searched; `nothing` where plain reduction leaves nothing of the claim.
pub(crate) fn answer<R: Ring + Copy>(
    alloc: Global,
    equations: &Equations<R>,
    budget: u32,
    port: &mut Counter,
) -> Result<String, Fail> {
    let ring = equations.ring();
    let list = equations.list();
    let definitions = equations.defs().len();
    if definitions > list.len() || !are_fit(ring, list, definitions) {
        return Err("the equations of a test fit".into());
    }
    if !leaves_rest(alloc, equations)? {
        return Ok(String::from_str(alloc, "nothing")?);
    }
    let claim = equations.claim();
    let answer = member(alloc, ring, equations, claim, budget.max(1), port);
    Ok(text_of(alloc, ring, &answer)?)
}

/// The answer as a text.
fn text_of<R: Ring>(alloc: Global, ring: &R, answer: &Member<R>) -> Result<String, AllocError> {
    let mut text = String::new(alloc);
    match answer {
        Member::Cofactors(cofactors) => {
            text.push_str("cofactors")?;
            for cofactor in cofactors.as_slice() {
                write!(&mut text, " {}: ", cofactor.equation)?;
                write_terms(&mut text, ring, &cofactor.poly)?;
            }
        }
        Member::Spent(n) => write!(&mut text, "spent {n}")?,
        Member::Rest(rest, note) => {
            text.push_str("rest ")?;
            write_terms(&mut text, ring, rest)?;
            match note {
                Some(Note::NoInverse(c)) => write!(&mut text, " pivot {c}")?,
                Some(Note::Wide(place)) => write!(&mut text, " wide {place}")?,
                None => {}
            }
        }
        Member::Stopped => text.push_str("stopped")?,
        Member::Memory => return Err(AllocError),
    }
    Ok(text)
}
