// The clauses that watch one literal.

ghost use Rattle.tcl_trail.specs.Watching.{IsTakenAt};
ghost use Rattle.std.specs.Prelude.{◌≡◌, ℕ, ◌<◌, if◌then◌else◌, OnOk, OnErr, Some, length, slice_get, slice_set, take, ◌-◌, List, [], ◌∷◌, ◌++◌};

use crate::pair::Watch;
use std::alloc::{AllocError, Global};
use std::marker::Model;

#[derive(Drop)]
pub(crate) struct WatchList {
    watches: Vec<Watch>,
}

impl Model for WatchList {
    ghost use Rattle.std.specs.Prelude.{List};
    ghost use Rattle.tcl_trail.specs.declared.pair.Watch.{Watch};

    ghost Value = { List Watch };

    ghost view = { λ w. w.watches.items };
}

impl WatchList {
    pub(crate) fn new(alloc: Global) -> WatchList
        ensures { result ≡ [] }
    {
        WatchList {
            watches: Vec::new(alloc),
        }
    }

    pub(crate) fn len(&self) -> usize
        ensures { result ≡ length self.now }
    {
        self.watches.len()
    }

    pub(crate) fn at(&self, i: usize) -> Watch
        requires { i < length self.now }
        ensures { slice_get self.now i ≡ Some result }
    {
        self.watches[i]
    }

    /// Makes room for so many more.
    pub(crate) fn reserve(&mut self, additional: usize) -> Result<(), AllocError>
        ensures { self.new ≡ self.old }
    {
        self.watches.reserve(additional)
    }

    pub(crate) fn push(&mut self, watch: Watch) -> Result<(), AllocError>
        ensures ok { OnOk result (self.new ≡ self.old ++ watch ∷ []) }
        ensures err { OnErr result (self.new ≡ self.old) }
    {
        self.watches.push(watch)?;
        Ok(())
    }

    /// Puts the watch in, if there is room.
    pub(crate) fn push_within(&mut self, watch: Watch) -> bool
        ensures { self.new ≡ (if result then self.old ++ watch ∷ [] else self.old) }
    {
        if self.watches.len() < self.watches.capacity() {
            self.watches.push_reserved(watch);
            true
        } else {
            false
        }
    }

    /// Replaces the watch at this place.
    pub(crate) fn put(&mut self, i: usize, watch: Watch)
        requires { i < length self.old }
        ensures { self.new ≡ slice_set self.old i watch }
    {
        self.watches[i] = watch;
    }

    /// Takes the watch at this place out, and puts the last one there.
    pub(crate) fn take_at(&mut self, i: usize)
        requires { i < length self.old }
        ensures { IsTakenAt self.old self.new i }
    {
        self.watches.swap_remove(i);
    }

    /// Takes the last one out.
    pub(crate) fn forget_last(&mut self)
        requires { 0 < length self.old }
        ensures { self.new ≡ take (length self.old - 1) self.old }
    {
        let last = self.watches.len() - 1;
        self.watches.truncate(last);
    }
}
