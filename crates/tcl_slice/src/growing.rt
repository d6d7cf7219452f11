//! The least set of variables that a slice is.

ghost use Rattle.std.specs.Prelude.{◌≡◌, ◌&&◌, not, nat_le, OnOk, Some, map};
ghost use Rattle.std.specs.List.{fold, list_any};
ghost use Rattle.tcl_lang.specs.Names.{used_names, defined_names};
ghost use Rattle.tcl_goals.specs.Places.{is_step};
ghost use Rattle.tcl_goals.specs.Defaults as defaults;
ghost use Rattle.tcl_goals.specs.Slices as slices;
ghost use Rattle.tcl_goals.specs.Closure.{is_marked};
ghost use Rattle.tcl_slice.specs.Touching as touching;

use crate::links::Links;
use crate::search::{Search, is_any, is_marked};
use std::alloc::{AllocError, Global};
use tcl_goals::Starts;
use tcl_lang::Line;
use tcl_list::Listing;

/// Follows the variables of the search, in the order in which they were reached, to the lines before the place that name
/// them, until each was followed.
#[tactic(auto, unfolding(crate::specs::Touching::grown))]
pub(crate) fn grow(
    lines: &[Line],
    links: &Links,
    starts: Starts,
    place: usize,
    search: &mut Search,
    variables: usize,
) -> Result<(), AllocError>
    requires names { links.now.names ≡ map used_names lines.now }
    ensures { OnOk result (search.new ≡ touching.grown lines.now starts place links.now.rows.items search.old variables) }
{
    for n in 0..variables {
        follow_next(lines, links, starts, place, search, n)?;
    }
    Ok(())
}

/// Follows variable `n` of those that were reached, if there is one.
fn follow_next(
    lines: &[Line],
    links: &Links,
    starts: Starts,
    place: usize,
    search: &mut Search,
    n: usize,
) -> Result<(), AllocError>
    requires names { links.now.names ≡ map used_names lines.now }
    ensures { OnOk result (search.new ≡ touching.next_followed lines.now starts place links.now.rows.items search.old n) }
{
    if n < search.order.len() {
        let v = *search.order.at(n);
        follow(lines, links, starts, place, search, v)?;
    }
    Ok(())
}

/// Takes the lines that name a variable.
fn follow(
    lines: &[Line],
    links: &Links,
    starts: Starts,
    place: usize,
    search: &mut Search,
    v: u32,
) -> Result<(), AllocError>
    requires names { links.now.names ≡ map used_names lines.now }
    ensures { OnOk result (search.new ≡ touching.variable_followed lines.now starts place links.now.rows.items search.old v) }
{
    let v = v as usize;
    if v < links.rows.len() {
        take_lines(
            lines,
            links.names.as_slice(),
            starts,
            place,
            search,
            links.rows[v].as_slice(),
        )?;
    }
    Ok(())
}

/// Takes these lines, where they stand before the place and touch the set.
fn take_lines(
    lines: &[Line],
    names: &[Listing<u32>],
    starts: Starts,
    place: usize,
    search: &mut Search,
    places: &[u32],
) -> Result<(), AllocError>
    requires names { names.now ≡ map used_names lines.now }
    ensures { OnOk result (search.new ≡ fold (touching.line_taken lines.now starts place) search.old places.now) }
{
    for k in 0..places.len() {
        take_line(lines, names, starts, place, search, places[k] as usize)?;
    }
    Ok(())
}

/// Takes line `j`, where it stands before the place and touches the set.
fn take_line(
    lines: &[Line],
    names: &[Listing<u32>],
    starts: Starts,
    place: usize,
    search: &mut Search,
    j: usize,
) -> Result<(), AllocError>
    requires names { names.now ≡ map used_names lines.now }
    ensures { OnOk result (search.new ≡ touching.line_taken lines.now starts place search.old j) }
{
    if j < place && j < lines.len() {
        take_step(&lines[j], names[j].as_slice(), starts, search, j)?;
        take_hyp(&lines[j], names[j].as_slice(), starts, search, j)?;
    }
    Ok(())
}

/// Takes a line as an instruction, where it counts and defines a variable of the set.
fn take_step(
    line: &Line,
    names: &[u32],
    starts: Starts,
    search: &mut Search,
    j: usize,
) -> Result<(), AllocError>
    requires { names.now ≡ used_names line.now }
    ensures { OnOk result (search.new ≡ touching.step_at (Some line.now) starts search.old j) }
{
    if is_sliced_step(line, starts, search.marks.as_slice(), j) {
        reach_line(search, line, names)
    } else {
        Ok(())
    }
}

/// Whether a line is an instruction that counts and defines a variable of the set.
pub(crate) fn is_sliced_step(line: &Line, starts: Starts, marks: &[bool], j: usize) -> bool
    ensures { result ≡ ((is_step line.now && nat_le (defaults.first_start starts) j) && list_any (is_marked marks.now) (defined_names line.now)) }
{
    match line {
        Line::Step(instr) => first_start(starts) <= j && is_any(marks, instr.outs.as_slice()),
        _ => false,
    }
}

/// Reaches the variables that a line names.
#[tactic(auto, using(crate::proofs::Joining::reached_append))]
fn reach_line(search: &mut Search, line: &Line, names: &[u32]) -> Result<(), AllocError>
    requires { names.now ≡ used_names line.now }
    ensures { OnOk result (search.new ≡ touching.reached_all search.old (slices.named_in (Some line.now))) }
{
    match line {
        Line::Input(_, v) => search.reach(*v),
        Line::Step(instr) => {
            search.reach_all(instr.outs.as_slice())?;
            search.reach_all(names)
        }
        _ => search.reach_all(names),
    }
}

/// Takes a line as a hypothesis, where it counts, reads a variable of the set and was not taken before.
fn take_hyp(
    line: &Line,
    names: &[u32],
    starts: Starts,
    search: &mut Search,
    j: usize,
) -> Result<(), AllocError>
    requires { names.now ≡ used_names line.now }
    ensures { OnOk result (search.new ≡ touching.hyp_at (Some line.now) starts search.old j) }
{
    if is_default(starts, j, line) && is_new(search, j, names) {
        search.reach_all(names)?;
        search.take(j);
    }
    Ok(())
}

/// Whether a line was not taken, and one of these variables is in the set.
fn is_new(search: &Search, j: usize, vs: &[u32]) -> bool
    ensures { result ≡ (not (is_marked search.now.taken j) && list_any (is_marked search.now.marks) vs.now) }
{
    !is_marked(search.taken.as_slice(), j) && is_any(search.marks.as_slice(), vs)
}

/// Where the instructions begin that count.
fn first_start(starts: Starts) -> usize
    ensures { result ≡ defaults.first_start starts }
{
    starts.algebraic.min(starts.range)
}

/// Whether the line of place `j` is a default hypothesis under these starts.
pub(crate) fn is_default(starts: Starts, j: usize, line: &Line) -> bool
    ensures { result ≡ defaults.is_default starts j line.now }
{
    let start = if line.is_algebraic() {
        starts.algebraic
    } else {
        starts.range
    };
    line.is_hypothesis() && start <= j
}
