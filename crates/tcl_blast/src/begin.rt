// The free bits of a fact as the first gates of its circuit.

ghost use Rattle.std.specs.Prelude.{◌≡◌, ◌+◌, ◌++◌, [], fold, IfOk, OnOk, length, replicate, slice_get};
ghost use Rattle.tcl_goals.specs.Free.{width_in};
ghost use Rattle.tcl_blast.specs.Begin.{lits_from, free_step, begun};

use crate::blasted::Begun;
use std::alloc::{AllocError, Global};
use tcl_circuits::Lits;
use tcl_gates::{Gate, Gates};
use tcl_goals::{Fact, Lemmas, free_variables};
use tcl_lang::{Ssa, Variable};
use tcl_list::Listing;
use tcl_words::Words;

/// The free bits of a fact: variables by number, and of each the lowest bit first.
#[tactic(auto, using(crate::proofs::Loops::begun_is))]
pub(crate) fn begin(
    alloc: Global,
    ssa: &Ssa,
    lemmas: &Lemmas,
    fact: &Fact,
) -> Result<Begun, AllocError>
    ensures { IfOk result (λ made. made ≡ begun ssa.now lemmas.now.items fact.now) }
{
    let frees = free_variables(alloc, ssa, lemmas, fact)?;
    let variables = ssa.variables().as_slice();
    let mut begun = Begun {
        gates: Gates::new(alloc),
        words: no_words(alloc, variables.len())?,
    };
    add_all_free(alloc, &mut begun, variables, frees.as_slice())?;
    Ok(begun)
}

/// Gives free variables their gates and literals.
fn add_all_free(
    alloc: Global,
    begun: &mut Begun,
    variables: &[Variable],
    frees: &[u32],
) -> Result<(), AllocError>
    ensures { OnOk result (begun.new ≡ fold (free_step variables.now) begun.old frees.now) }
{
    for v in frees {
        add_free(alloc, begun, variables, *v)?;
    }
    Ok(())
}

/// Gives a free variable its gates and literals.
#[tactic(auto, using(std::proofs::lemmas::List::set_past))]
fn add_free(
    alloc: Global,
    begun: &mut Begun,
    variables: &[Variable],
    v: u32,
) -> Result<(), AllocError>
    ensures { OnOk result (begun.new ≡ free_step variables.now begun.old v) }
{
    let width = width_of(variables, v);
    let lits = free_lits(alloc, &mut begun.gates, width)?;
    if (v as usize) < begun.words.len() {
        begun.words.set(v as usize, lits);
    }
    Ok(())
}

/// Appends as many free gates, and gives their literals.
#[tactic(auto, using(crate::proofs::Loops::lits_more, crate::proofs::Loops::lits_none, std::proofs::lemmas::List::replicate_more))]
fn free_lits(alloc: Global, gates: &mut Gates, width: u32) -> Result<Lits, AllocError>
    ensures made { OnOk result (gates.new ≡ gates.old ++ replicate width Gate.Free) }
    ensures lits { IfOk result (λ lits. lits ≡ lits_from (length gates.old + 1) width) }
{
    let mut lits = Listing::new(alloc);
    for bit in 0..width {
        let lit = gates.push(Gate::Free)?;
        lits.push(lit)?;
    }
    Ok(lits)
}

/// No literals for so many variables.
#[tactic(auto, using(std::proofs::lemmas::List::replicate_more))]
fn no_words(alloc: Global, count: usize) -> Result<Words, AllocError>
    ensures { IfOk result (λ words. words ≡ replicate count []) }
{
    let mut words = Listing::new(alloc);
    for v in 0..count {
        words.push(Listing::new(alloc))?;
    }
    Ok(words)
}

/// The width of a variable; 0 where there is none.
fn width_of(variables: &[Variable], v: u32) -> u32
    ensures { result ≡ width_in (slice_get variables.now v) }
{
    match variables.get(v as usize) {
        Some(variable) => variable.ty.width,
        None => 0,
    }
}
