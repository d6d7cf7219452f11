// The watches: each clause of two literals and more watches two of them, and is looked at only where one becomes false.

ghost use Rattle.std.specs.Prelude.{◌≡◌, ℕ, ◌+◌, ◌<◌, ◌≤◌, ◌^◌, OnOk, OnErr, IfSome, MatchBool, if◌then◌else◌, true, Option, Some, None, length, slice_get, slice_set, take, ◌-◌, List, [], ◌∷◌, ◌++◌};
ghost use Rattle.tcl_cnf.specs.Clause.{has};
ghost use Rattle.tcl_trail.specs.Watching.{WatchState, listed, watches, numbers_of, SameLists, MoreLists, IsTakenAt, IsTaken, IsShifted, IsRewatched, IsReblocked};

use crate::pair::{Pair, Watch};
use crate::watch_list::WatchList;
use std::alloc::{AllocError, Global};
use std::marker::Model;
use tcl_cnf::Lit;

#[derive(Drop)]
pub(crate) struct Watching {
    lists: Vec<WatchList>,
    // in how many clauses each literal is
    counts: Vec<usize>,
    pairs: Vec<Pair>,
    shorts: Vec<u32>,
    head: usize,
}

impl Model for Watching {
    ghost use Rattle.tcl_trail.specs.Watching.{WatchState};

    ghost Value = { WatchState };

    ghost view = { λ w. record { lists = w.lists.items; pairs = w.pairs.items; shorts = w.shorts.items; head = w.head } };
}

impl Watching {
    pub(crate) fn new(alloc: Global) -> Watching
        ensures { result ≡ record { lists = []; pairs = []; shorts = []; head = 0 } }
    {
        Watching {
            lists: Vec::new(alloc),
            counts: Vec::new(alloc),
            pairs: Vec::new(alloc),
            shorts: Vec::new(alloc),
            head: 0,
        }
    }

    /// Makes a list for each literal below this one.
    pub(crate) fn widen(&mut self, alloc: Global, len: usize) -> Result<(), AllocError>
        ensures lists { SameLists self.old.lists self.new.lists }
        ensures wide { OnOk result (len ≤ length self.new.lists) }
        ensures same { self.new ≡ record self.old { lists = self.new.lists } }
    {
        widen_lists(&mut self.lists, alloc, len)?;
        widen_counts(&mut self.counts, len)
    }

    /// How many clauses watch the literal.
    pub(crate) fn count(&self, lit: Lit) -> usize
        ensures { result ≡ length (listed self.now.lists lit) }
    {
        let l = lit.number() as usize;
        if l < self.lists.len() {
            self.lists[l].len()
        } else {
            0
        }
    }

    /// One of them.
    pub(crate) fn watch_at(&self, lit: Lit, i: usize) -> Watch
        requires { i < length (listed self.now.lists lit) }
        ensures { slice_get (watches self.now.lists lit) i ≡ Some result }
    {
        let l = lit.number() as usize;
        if l < self.lists.len() {
            self.lists[l].at(i)
        } else {
            unreachable!()
        }
    }

    /// The watched literals of the clause of this number.
    pub(crate) fn pair(&self, k: usize) -> Option<Pair>
        ensures { result ≡ slice_get self.now.pairs k }
    {
        if k < self.pairs.len() {
            Some(self.pairs[k])
        } else {
            None
        }
    }

    /// Lets the clause at this place of the one list watch these literals, and puts it into the other list, where there is
    /// room.
    pub(crate) fn rewatch(&mut self, from: Lit, i: usize, number: u32, to: Lit, pair: Pair) -> bool
        requires there { slice_get (listed self.old.lists from) i ≡ Some number }
        requires apart { from ≡ to → ⊥ }
        requires within { number < length self.old.pairs }
        ensures { MatchBool result (IsRewatched self.old self.new from i number to pair) (self.new ≡ self.old) }
    {
        if shift(
            &mut self.lists,
            from.number() as usize,
            i,
            Watch {
                number,
                blocker: pair.second,
            },
            to.number() as usize,
        ) {
            self.pairs[number as usize] = pair;
            true
        } else {
            false
        }
    }

    /// Gives the watch at this place of the literal's list another blocker.
    pub(crate) fn reblock(&mut self, lit: Lit, i: usize, number: u32, blocker: Lit)
        requires { slice_get (listed self.old.lists lit) i ≡ Some number }
        ensures reblocked { IsReblocked self.old.lists self.new.lists (record { number = number; blocker = blocker }) }
        ensures same { self.new ≡ record self.old { lists = self.new.lists } }
    {
        set_watch(
            &mut self.lists,
            lit.number() as usize,
            i,
            Watch { number, blocker },
        );
    }

    /// Lets the next clause, of this number, watch these literals.
    pub(crate) fn add_pair(&mut self, number: u32, pair: Pair) -> Result<(), AllocError>
        requires first { pair.first < length self.old.lists }
        requires second { pair.second < length self.old.lists }
        ensures more { OnOk result (MoreLists self.old.lists self.new.lists (record { number = number; blocker = pair.second }) (record { number = number; blocker = pair.first })) }
        ensures first { OnOk result (has number (listed self.new.lists pair.first) ≡ true) }
        ensures second { OnOk result (has number (listed self.new.lists pair.second) ≡ true) }
        ensures ok { OnOk result (self.new ≡ record self.old { lists = self.new.lists; pairs = self.old.pairs ++ pair ∷ [] }) }
        ensures err { OnErr result (self.new ≡ self.old) }
    {
        self.pairs.reserve(1)?;
        let first = pair.first;
        let second = pair.second;
        enlist_both(&mut self.lists, number, first, second)?;
        self.pairs.push_reserved(pair);
        Ok(())
    }

    /// Lets the next clause, of this number, watch nothing.
    pub(crate) fn add_short(&mut self, number: u32, pair: Pair) -> Result<(), AllocError>
        ensures ok { OnOk result (self.new ≡ record self.old { pairs = self.old.pairs ++ pair ∷ []; shorts = self.old.shorts ++ number ∷ [] }) }
        ensures err { OnErr result (self.new ≡ self.old) }
    {
        self.shorts.reserve(1)?;
        self.pairs.push(pair)?;
        self.shorts.push_reserved(number);
        Ok(())
    }

    /// Makes room for a clause of these literals, so that each of them may be watched.
    pub(crate) fn reserve_for(&mut self, lits: &[Lit]) -> Result<(), AllocError>
        ensures { self.new ≡ self.old }
    {
        reserve_lists(&mut self.lists, &mut self.counts, lits)
    }

    /// How many clauses are not watched.
    pub(crate) fn short_count(&self) -> usize
        ensures { result ≡ length self.now.shorts }
    {
        self.shorts.len()
    }

    pub(crate) fn short_at(&self, j: usize) -> u32
        requires { j < length self.now.shorts }
        ensures { slice_get self.now.shorts j ≡ Some result }
    {
        self.shorts[j]
    }

    /// How many entries are seen.
    pub(crate) fn head(&self) -> usize
        ensures { result ≡ self.now.head }
    {
        self.head
    }

    /// One entry more is seen.
    pub(crate) fn advance(&mut self)
        requires { self.old.head < 2 ^ 32 }
        ensures { self.new ≡ record self.old { head = self.old.head + 1 } }
    {
        self.head += 1;
    }

    /// At most so many entries are seen.
    pub(crate) fn lower(&mut self, limit: usize)
        ensures same { self.new ≡ record self.old { head = self.new.head } }
        ensures lower { self.new.head ≤ self.old.head }
        ensures limit { self.new.head ≤ limit }
    {
        self.head = self.head.min(limit);
    }
}

/// Makes lists up to this number.
fn widen_lists(lists: &mut Vec<WatchList>, alloc: Global, len: usize) -> Result<(), AllocError>
    ensures same { SameLists lists.old.items lists.new.items }
    ensures wide { OnOk result (len ≤ length lists.new.items) }
{
    for _place in lists.len()..len {
        lists.push(WatchList::new(alloc))?;
    }
    Ok(())
}

fn widen_counts(counts: &mut Vec<usize>, len: usize) -> Result<(), AllocError> {
    for _place in counts.len()..len {
        counts.push(0)?;
    }
    Ok(())
}

/// Takes the number at this place of the one list out, and puts it into the other, where there is room.
fn shift(lists: &mut Vec<WatchList>, from: usize, i: usize, watch: Watch, to: usize) -> bool
    requires there { slice_get (listed lists.old.items from) i ≡ Some watch.number }
    requires apart { from ≡ to → ⊥ }
    ensures { MatchBool result (IsShifted lists.old.items lists.new.items from i watch.number to watch) (lists.new.items ≡ lists.old.items) }
{
    if to >= lists.len() || from >= lists.len() {
        return false;
    }
    if !put_in(lists, to, watch) {
        return false;
    }
    take_out(lists, from, i);
    true
}

fn put_in(lists: &mut Vec<WatchList>, to: usize, watch: Watch) -> bool
    requires { to < length lists.old.items }
    ensures { lists.new.items ≡ (if result then slice_set lists.old.items to (watches lists.old.items to ++ watch ∷ []) else lists.old.items) }
{
    let list = &mut lists[to];
    list.push_within(watch)
}

fn take_out(lists: &mut Vec<WatchList>, from: usize, i: usize)
    requires there { from < length lists.old.items }
    requires within { i < length (listed lists.old.items from) }
    ensures { IsTaken lists.old.items lists.new.items from i }
{
    let list = &mut lists[from];
    list.take_at(i);
}

/// Replaces the watch at this place of a list by another one of the same clause.
fn set_watch(lists: &mut Vec<WatchList>, l: usize, i: usize, watch: Watch)
    requires { slice_get (listed lists.old.items l) i ≡ Some watch.number }
    ensures { IsReblocked lists.old.items lists.new.items watch }
{
    if l < lists.len() {
        let list = &mut lists[l];
        list.put(i, watch);
    }
}

/// Puts the clause's number into the lists of both literals.
fn enlist_both(
    lists: &mut Vec<WatchList>,
    number: u32,
    first: Lit,
    second: Lit,
) -> Result<(), AllocError>
    requires first { first < length lists.old.items }
    requires second { second < length lists.old.items }
    ensures more { OnOk result (MoreLists lists.old.items lists.new.items (record { number = number; blocker = second }) (record { number = number; blocker = first })) }
    ensures first { OnOk result (has number (listed lists.new.items first) ≡ true) }
    ensures second { OnOk result (has number (listed lists.new.items second) ≡ true) }
    ensures err { OnErr result (lists.new.items ≡ lists.old.items) }
{
    let at_first = first.number() as usize;
    let at_second = second.number() as usize;
    enlist(
        lists,
        at_first,
        Watch {
            number,
            blocker: second,
        },
    )?;
    match enlist(
        lists,
        at_second,
        Watch {
            number,
            blocker: first,
        },
    ) {
        Ok(()) => Ok(()),
        Err(error) => {
            unlist(lists, at_first);
            Err(error)
        }
    }
}

/// Puts the watch into the list.
fn enlist(lists: &mut Vec<WatchList>, to: usize, watch: Watch) -> Result<(), AllocError>
    requires { to < length lists.old.items }
    ensures ok { OnOk result (lists.new.items ≡ slice_set lists.old.items to (watches lists.old.items to ++ watch ∷ [])) }
    ensures err { OnErr result (lists.new.items ≡ lists.old.items) }
{
    let list = &mut lists[to];
    list.push(watch)
}

/// Takes the last watch out of the list.
fn unlist(lists: &mut Vec<WatchList>, to: usize)
    requires there { to < length lists.old.items }
    requires some { 0 < length (watches lists.old.items to) }
    ensures { lists.new.items ≡ slice_set lists.old.items to (take (length (watches lists.old.items to) - 1) (watches lists.old.items to)) }
{
    let list = &mut lists[to];
    list.forget_last();
}

/// Counts these literals, and makes room in the lists for as many.
fn reserve_lists(
    lists: &mut Vec<WatchList>,
    counts: &mut Vec<usize>,
    lits: &[Lit],
) -> Result<(), AllocError>
    ensures { lists.new.items ≡ lists.old.items }
{
    for lit in lits {
        let l = lit.number() as usize;
        if l < counts.len() && l < lists.len() {
            let count = counts[l].saturating_add(1);
            counts[l] = count;
            reserve_at(lists, l, count)?;
        }
    }
    Ok(())
}

fn reserve_at(lists: &mut Vec<WatchList>, l: usize, count: usize) -> Result<(), AllocError>
    requires { l < length lists.old.items }
    ensures { lists.new.items ≡ lists.old.items }
{
    let list = &mut lists[l];
    list.reserve(count.saturating_sub(list.len()))
}
