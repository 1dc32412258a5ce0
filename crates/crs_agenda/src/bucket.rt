ghost use Rattle.std.specs.Prelude.{◌≡◌, ◌<◌, ◌≤◌, ◌==◌, List, [], ◌∷◌, ◌++◌, OnOk, OnErr, IfSome, IfNone, length, slice_index_or, All};
ghost use Rattle.std.specs.List.{filter};
ghost use Rattle.crs_agenda.specs.Freshness.{is_fresh_pair};
ghost use Rattle.std.specs.List.Sorted.{IsPermutation};

use crate::timed::Timed;
use std::alloc::{AllocError, Global};
use std::marker::Model;

/// A bucket that once held more gives its memory back.
const LARGE: usize = 64;

/// Handles with their dates, in any order.
#[derive(Drop)]
pub struct Bucket {
    items: Vec<Timed>,
    /// No item has an earlier date.
    floor: u64,
}

impl Model for Bucket {
    ghost use Rattle.std.specs.Prelude.{List, All, ◌≤◌};
    ghost use Rattle.crs_agenda.specs.declared.timed.Timed.{Timed};

    ghost Value = { List Timed };

    ghost view = { λ b. b.items.items };

    ghost invariant = { λ b. All (λ t. b.floor ≤ t.date) b.items.items };
}

impl Bucket {
    pub fn new(alloc: Global) -> Bucket
        ensures { result ≡ [] }
    {
        Bucket {
            items: Vec::new(alloc),
            floor: u64::MAX,
        }
    }

    pub fn len(&self) -> usize
        ensures { result ≡ length self.now }
    {
        self.items.len()
    }

    pub fn push(&mut self, timed: Timed) -> Result<(), AllocError>
        ensures ok { OnOk result (self.new ≡ self.old ++ timed ∷ []) }
        ensures err { OnErr result (self.new ≡ self.old) }
    {
        match self.items.push(timed) {
            Ok(()) => {
                self.floor = self.floor.min(timed.date);
                Ok(())
            }
            Err(_) => Err(AllocError),
        }
    }

    /// A date before which no pair is dated.
    pub fn floor(&self) -> u64
        ensures { All (λ t. result ≤ t.date) self.now }
    {
        self.floor
    }

    pub fn get(&self, at: usize) -> Timed
        requires { at < length self.now }
        ensures { result ≡ slice_index_or self.now at result }
    {
        self.items[at]
    }

    /// Where the least date is.
    pub fn least(&self) -> usize
        requires { 0 < length self.now }
        ensures within { result < length self.now }
        ensures least { All (λ t. (slice_index_or self.now result t).date ≤ t.date) self.now }
    {
        let mut at = 0;
        let mut date = self.items[0].date;
        for i in 1..self.items.len() {
            if self.items[i].date < date {
                at = i;
                date = self.items[i].date;
            }
        }
        at
    }

    /// Takes out the one at this place.
    pub fn take(&mut self, at: usize) -> Timed
        requires { at < length self.old }
        ensures item { result ≡ slice_index_or self.old at result }
        ensures rest { IsPermutation self.old (result ∷ self.new) }
    {
        self.items.swap_remove(at)
    }

    pub fn clear(&mut self)
        ensures { self.new ≡ [] }
    {
        self.items.clear();
        self.floor = u64::MAX;
    }

    /// Keeps those with a fresh handle, in their order.
    pub fn keep_fresh(&mut self, serials: &[u32])
        ensures { self.new ≡ filter (is_fresh_pair serials.now) self.old }
    {
        let mut kept = 0;
        for i in 0..self.items.len() {
            let timed = self.items[i];
            if timed.handle.is_fresh(serials) {
                self.items[kept] = timed;
                kept += 1;
            }
        }
        self.items.truncate(kept);
    }

    /// Gives its memory back where it is empty and once held many.
    pub fn release(&mut self, alloc: Global)
        ensures { self.new ≡ self.old }
    {
        if self.items.len() == 0 && self.items.capacity() > LARGE {
            self.items = Vec::new(alloc);
        }
    }
}
