//! The fact of the cut route of a goal.

ghost use Rattle.std.specs.Prelude.{◌≡◌, ◌≤◌, ◌<◌, ◌^◌, ◌-◌, ◌&&◌, ◌++◌, ◌∷◌, [], true, cond, IfOk, OnOk, length, map};
ghost use Rattle.std.specs.List.{list_any};
ghost use Rattle.tcl_lang.specs.Names.{used_names};
ghost use Rattle.tcl_goals.specs.declared.fact.Hyp.TheVariants as hyp;
ghost use Rattle.tcl_goals.specs.Numbers.{those_below};
ghost use Rattle.tcl_goals.specs.Places as places;
ghost use Rattle.tcl_goals.specs.Closure.{is_marked};
ghost use Rattle.tcl_goals.specs.Defaults as defaults;
ghost use Rattle.tcl_goals.specs.Slices as slices;
ghost use Rattle.tcl_slice.specs.Touching as touching;

use crate::growing::{grow, is_default, is_sliced_step};
use crate::links::{Links, link};
use crate::search::{Search, is_any};
use std::alloc::{AllocError, Global};
use tcl_goals::{Claim, Cube, Fact, Hyp, Hyps, Starts, Uses, goal_place, starts_at};
use tcl_lang::{Line, Ssa};
use tcl_list::Listing;

/// The fact of a goal that rests on its slice (Weiser 1981): the default hypotheses and the instructions that a least set of
/// variables touches, which holds those of the goal. The cube is empty. The only error is that memory has run out.
pub fn slice(alloc: Global, ssa: &Ssa, goal: u32) -> Result<Fact, AllocError>
    requires { places.has_goal ssa.now.lines goal ≡ true }
    ensures { IfOk result (λ fact. fact ≡ slices.cut_fact ssa.now goal) }
{
    let links = link(alloc, ssa.lines(), ssa.variables().len())?;
    let fact = slice_by(alloc, ssa, &links, goal)?;
    Ok(fact)
}

/// The same by the links of the program.
pub(crate) fn slice_by(
    alloc: Global,
    ssa: &Ssa,
    links: &Links,
    goal: u32,
) -> Result<Fact, AllocError>
    requires goal { places.has_goal ssa.now.lines goal ≡ true }
    requires names { links.now.names ≡ map used_names ssa.now.lines }
    requires rows { links.now.rows.items ≡ touching.rows_of (length ssa.now.variables) ssa.now.lines }
    ensures { IfOk result (λ fact. fact ≡ slices.cut_fact ssa.now goal) }
{
    let lines = ssa.lines().as_slice();
    let place = goal_place(lines, goal);
    let starts = starts_at(lines, place);
    let search = searched(alloc, ssa, links, starts, place)?;
    let names = links.names.as_slice();
    let hyps = hyps_of(alloc, lines, names, starts, search.marks.as_slice(), place)?;
    let uses = uses_of(alloc, lines, starts, search.marks.as_slice(), place)?;
    Ok(Fact {
        claim: Claim::Goal(goal),
        hyps,
        cube: Cube::new(alloc),
        uses,
    })
}

/// The search from the variables that the line of a place reads.
fn searched(
    alloc: Global,
    ssa: &Ssa,
    links: &Links,
    starts: Starts,
    place: usize,
) -> Result<Search, AllocError>
    requires within { place < length ssa.now.lines }
    requires names { links.now.names ≡ map used_names ssa.now.lines }
    requires rows { links.now.rows.items ≡ touching.rows_of (length ssa.now.variables) ssa.now.lines }
    ensures { IfOk result (λ search. search ≡ touching.searched ssa.now starts place) }
{
    let lines = ssa.lines().as_slice();
    let variables = ssa.variables().len();
    let mut search = Search::new(alloc, variables, lines.len())?;
    search.reach_all(links.names.at(place).as_slice())?;
    grow(lines, links, starts, place, &mut search, variables)?;
    Ok(search)
}

/// The default hypotheses before a place that read a variable of the set.
fn hyps_of(
    alloc: Global,
    lines: &[Line],
    names: &[Listing<u32>],
    starts: Starts,
    marks: &[bool],
    end: usize,
) -> Result<Hyps, AllocError>
    requires few { length lines.now < 2 ^ 32 - 1 }
    requires names { names.now ≡ map used_names lines.now }
    requires within { end ≤ length lines.now }
    ensures { IfOk result (λ hyps. hyps ≡ defaults.line_hyps (those_below (slices.is_sliced_hyp lines.now starts marks.now) end)) }
{
    let mut hyps = Hyps::new(alloc);
    for k in 0..end {
        let counts = is_sliced_hyp(&lines[k], names[k].as_slice(), starts, marks, k);
        add_hyp(&mut hyps, counts, k as u32)?;
    }
    Ok(hyps)
}

/// Whether a line, which reads these names, is a default hypothesis that reads a variable of the set.
fn is_sliced_hyp(line: &Line, names: &[u32], starts: Starts, marks: &[bool], k: usize) -> bool
    requires { names.now ≡ used_names line.now }
    ensures { result ≡ (defaults.is_default starts k line.now && list_any (is_marked marks.now) (used_names line.now)) }
{
    is_default(starts, k, line) && is_any(marks, names)
}

/// Adds the line of a place, where it counts.
fn add_hyp(hyps: &mut Hyps, counts: bool, k: u32) -> Result<(), AllocError>
    ensures { OnOk result (hyps.new ≡ cond counts (hyps.old ++ hyp.Line k ∷ []) hyps.old) }
{
    if counts {
        hyps.push(Hyp::Line(k))
    } else {
        Ok(())
    }
}

/// The instructions before a place that count and define a variable of the set.
fn uses_of(
    alloc: Global,
    lines: &[Line],
    starts: Starts,
    marks: &[bool],
    end: usize,
) -> Result<Uses, AllocError>
    requires few { length lines.now < 2 ^ 32 - 1 }
    requires within { end ≤ length lines.now }
    ensures { IfOk result (λ uses. uses ≡ those_below (slices.is_sliced_step lines.now starts marks.now) end) }
{
    let mut uses = Uses::new(alloc);
    for k in 0..end {
        let counts = is_sliced_step(&lines[k], starts, marks, k);
        add_use(&mut uses, counts, k as u32)?;
    }
    Ok(uses)
}

/// Adds a place, where it counts.
fn add_use(uses: &mut Uses, counts: bool, k: u32) -> Result<(), AllocError>
    ensures { OnOk result (uses.new ≡ cond counts (uses.old ++ k ∷ []) uses.old) }
{
    if counts { uses.push(k) } else { Ok(()) }
}
