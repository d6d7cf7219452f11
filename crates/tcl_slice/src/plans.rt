//! The plan of a program: all pieces of its goals.

ghost use Rattle.std.specs.Prelude.{◌≡◌, ◌≤◌, ◌<◌, ◌^◌, ◌-◌, ◌/◌, ◌%◌, ◌==◌, ◌++◌, ◌∷◌, [], true, cond, IfOk, OnOk, length, map};
ghost use Rattle.tcl_lang.specs.Goal as goal_words;
ghost use Rattle.tcl_lang.specs.Line as line_words;
ghost use Rattle.tcl_lang.specs.Names.{used_names};
ghost use Rattle.tcl_goals.specs.Places as places;
ghost use Rattle.tcl_goals.specs.Slices as slices;
ghost use Rattle.tcl_goals.specs.Plans as plans;
ghost use Rattle.tcl_slice.specs.Touching as touching;

use crate::cut_facts::slice_by;
use crate::links::{Links, link};
use crate::whole_facts::whole;
use std::alloc::{AllocError, Global};
use tcl_goals::{Bit, BitLit, Cube, Fact, Lemmas, Piece, Plan, Route, free_bits, goal_place};
use tcl_lang::{Line, Ssa};
use tcl_list::Listing;

/// All pieces in order, numbered from 0: by goal, then the cut and the whole route, then by cube. Each route of a range or an
/// exactness goal is split over the first `split` free bits of its fact, or all where there are fewer.
///
/// The only error is that memory has run out; so it has where a piece had no number below 2^32.
pub fn plan(alloc: Global, ssa: &Ssa, split: u32) -> Result<Plan, AllocError>
    requires { split ≤ 6 }
    ensures { IfOk result (λ plan. plan ≡ plans.plan_of ssa.now split) }
{
    let links = link(alloc, ssa.lines(), ssa.variables().len())?;
    let mut plan = Plan::new(alloc);
    add_goals(alloc, ssa, &links, split, &mut plan)?;
    Ok(plan)
}

/// Adds the pieces of all goals.
fn add_goals(
    alloc: Global,
    ssa: &Ssa,
    links: &Links,
    split: u32,
    plan: &mut Plan,
) -> Result<(), AllocError>
    requires few { split ≤ 6 }
    requires names { links.now.names ≡ map used_names ssa.now.lines }
    requires rows { links.now.rows.items ≡ touching.rows_of (length ssa.now.variables) ssa.now.lines }
    requires begins { plan.old ≡ [] }
    ensures { OnOk result (plan.new ≡ plans.plan_of ssa.now split) }
{
    let count = goal_count(ssa.lines().as_slice());
    for goal in 0..count {
        add_goal(alloc, ssa, links, split, goal, plan)?;
    }
    Ok(())
}

/// How many goals there are.
fn goal_count(lines: &[Line]) -> u32
    requires { length lines.now < 2 ^ 32 - 1 }
    ensures { result ≡ goal_words.goal_count lines.now }
{
    let mut count = 0;
    for k in 0..lines.len() {
        count += is_goal(&lines[k]);
    }
    count
}

/// Whether a line has a goal, as a number.
fn is_goal(line: &Line) -> u32
    ensures { result ≡ cond (line_words.is_goal line.now) 1 0 }
{
    if line.is_goal() { 1 } else { 0 }
}

/// Adds the pieces of a goal.
#[tactic(auto, using(crate::proofs::Planning::pieces_joined))]
fn add_goal(
    alloc: Global,
    ssa: &Ssa,
    links: &Links,
    split: u32,
    goal: u32,
    plan: &mut Plan,
) -> Result<(), AllocError>
    requires few { split ≤ 6 }
    requires goal { places.has_goal ssa.now.lines goal ≡ true }
    requires names { links.now.names ≡ map used_names ssa.now.lines }
    requires rows { links.now.rows.items ≡ touching.rows_of (length ssa.now.variables) ssa.now.lines }
    ensures { OnOk result (plan.new ≡ plan.old ++ plans.number_from (length plan.old) (plans.goal_pieces ssa.now split goal)) }
{
    add_route(alloc, ssa, links, split, goal, Route::Cut, plan)?;
    add_route(alloc, ssa, links, split, goal, Route::Whole, plan)
}

/// Adds the pieces of a route of a goal.
fn add_route(
    alloc: Global,
    ssa: &Ssa,
    links: &Links,
    split: u32,
    goal: u32,
    route: Route,
    plan: &mut Plan,
) -> Result<(), AllocError>
    requires few { split ≤ 6 }
    requires goal { places.has_goal ssa.now.lines goal ≡ true }
    requires names { links.now.names ≡ map used_names ssa.now.lines }
    requires rows { links.now.rows.items ≡ touching.rows_of (length ssa.now.variables) ssa.now.lines }
    ensures { OnOk result (plan.new ≡ plan.old ++ plans.number_from (length plan.old) (plans.cube_pieces goal route (plans.split_bits ssa.now split goal route))) }
{
    let bits = split_bits(alloc, ssa, links, split, goal, route)?;
    add_cubes(alloc, plan, goal, route, bits.as_slice())
}

/// The bits over which a route of a goal is split: none for an algebraic goal.
fn split_bits(
    alloc: Global,
    ssa: &Ssa,
    links: &Links,
    split: u32,
    goal: u32,
    route: Route,
) -> Result<Listing<Bit>, AllocError>
    requires few { split ≤ 6 }
    requires goal { places.has_goal ssa.now.lines goal ≡ true }
    requires names { links.now.names ≡ map used_names ssa.now.lines }
    requires rows { links.now.rows.items ≡ touching.rows_of (length ssa.now.variables) ssa.now.lines }
    ensures bits { IfOk result (λ bits. bits ≡ plans.split_bits ssa.now split goal route) }
    ensures few { IfOk result (λ bits. length bits ≤ 6) }
{
    if split == 0 || is_algebraic_goal(ssa.lines().as_slice(), goal) {
        return Ok(Listing::new(alloc));
    }
    let fact = route_fact(alloc, ssa, links, goal, route)?;
    let mut bits = free_bits(alloc, ssa, &Lemmas::new(alloc), &fact)?;
    bits.truncate(split as usize);
    Ok(bits)
}

/// Whether the goal is an algebraic one.
fn is_algebraic_goal(lines: &[Line], goal: u32) -> bool
    ensures { result ≡ plans.is_algebraic_goal lines.now goal }
{
    match lines.get(goal_place(lines, goal)) {
        Some(line) => line.is_algebraic(),
        None => false,
    }
}

/// The fact of a route of a goal.
fn route_fact(
    alloc: Global,
    ssa: &Ssa,
    links: &Links,
    goal: u32,
    route: Route,
) -> Result<Fact, AllocError>
    requires goal { places.has_goal ssa.now.lines goal ≡ true }
    requires names { links.now.names ≡ map used_names ssa.now.lines }
    requires rows { links.now.rows.items ≡ touching.rows_of (length ssa.now.variables) ssa.now.lines }
    ensures { IfOk result (λ fact. fact ≡ slices.route_fact ssa.now goal route) }
{
    match route {
        Route::Cut => slice_by(alloc, ssa, links, goal),
        Route::Whole => whole(alloc, ssa, goal),
    }
}

/// Adds the pieces of a route, one for each cube over these bits.
fn add_cubes(
    alloc: Global,
    plan: &mut Plan,
    goal: u32,
    route: Route,
    bits: &[Bit],
) -> Result<(), AllocError>
    requires { length bits.now ≤ 6 }
    ensures { OnOk result (plan.new ≡ plan.old ++ plans.number_from (length plan.old) (plans.cube_pieces goal route bits.now)) }
{
    for n in 0..1u32 << bits.len() {
        let cube = nth_cube(alloc, bits, n)?;
        add_piece(plan, goal, route, cube)?;
    }
    Ok(())
}

/// Adds a piece with the next number.
fn add_piece(plan: &mut Plan, goal: u32, route: Route, cube: Cube) -> Result<(), AllocError>
    ensures { OnOk result (plan.new ≡ plan.old ++ record { number = length plan.old; goal = goal; route = route; cube = cube } ∷ []) }
{
    let number = next_number(plan)?;
    plan.push(Piece {
        number,
        goal,
        route,
        cube,
    })
}

/// The number of the next piece.
fn next_number(plan: &Plan) -> Result<u32, AllocError>
    ensures { IfOk result (λ number. number ≡ length plan.now) }
{
    let number = plan.len();
    if number < 4294967296 {
        Ok(number as u32)
    } else {
        Err(AllocError)
    }
}

/// Cube `n` over these bits, the first of which counts most.
fn nth_cube(alloc: Global, bits: &[Bit], n: u32) -> Result<Cube, AllocError>
    requires { length bits.now ≤ 6 }
    ensures { IfOk result (λ cube. cube ≡ plans.nth_cube bits.now n) }
{
    let mut cube = Cube::new(alloc);
    for k in 0..bits.len() {
        let value = bit_of(n, bits.len() - 1 - k);
        cube.push(BitLit {
            var: bits[k].var,
            bit: bits[k].bit,
            value,
        })?;
    }
    Ok(cube)
}

/// Bit `k` of a number.
fn bit_of(n: u32, k: usize) -> bool
    requires { k < 6 }
    ensures { result ≡ (n / 2 ^ k % 2 == 1) }
{
    (n >> k) % 2 == 1
}
