ghost use Rattle.std.specs.Prelude.{◌≡◌, ◌≤◌, [], ◌↔◌, OnOk, OnErr, IfSome, IsNone, option_map, slice_get};
ghost use Rattle.std.specs.List.{AllByRecursion};
ghost use Rattle.crs_base.specs.Entry.{IsInKeyOrder};
ghost use Rattle.crs_base.specs.Seen.{entry_of};
ghost use Rattle.crs_model.specs.Order.{put_in_order};
ghost use Rattle.crs_buffer.specs.Entries.{released, left, without_arrival, IsNewKey};

use crate::held::Held;
use crate::queue::{
    compare_before, drop_arrival, first_of, place_of, put_at, put_before, take_first,
};
use crs_base::Entry;
use std::alloc::{AllocError, Global};
use std::cmp::Ordering;
use std::collections::{BTreeSet, VecDeque};
use std::marker::Model;
use std::rc::Rc;

/// Entries, in key order: by date, then by canonical text, then by arrival number. A log is nearly
/// sorted, so most entries go to the end of a queue or near it. Over all calls, a call takes time
/// logarithmic in how many there are.
#[derive(Drop)]
pub struct Buffer {
    /// The entries that come before all of the queue.
    set: BTreeSet<Held>,
    queue: VecDeque<Held>,
}

impl Model for Buffer {
    ghost use Rattle.std.specs.Prelude.{List, ◌++◌};
    ghost use Rattle.std.specs.List.Sorted.{IsStrictlySortedBy};
    ghost use Rattle.crs_base.specs.declared.symbols.Sym.{Sym};
    ghost use Rattle.crs_base.specs.Entry.{Entry as LogEntry};
    ghost use Rattle.crs_buffer.specs.HeldOrder.{entries_of, held_cmp};

    ghost Value = { List (LogEntry Sym) };

    ghost view = { λ b. entries_of (b.set.keys ++ b.queue.items) };

    ghost invariant = { λ b. IsStrictlySortedBy held_cmp (b.set.keys ++ b.queue.items) };
}

impl Buffer {
    /// A buffer without entries, which takes no memory.
    pub fn new(alloc: Global) -> Buffer
        ensures { result ≡ [] }
    {
        Buffer {
            set: BTreeSet::new(alloc),
            queue: VecDeque::new(alloc),
        }
    }

    /// Puts an entry in at its place. No two entries of a log have equal keys, since their arrival
    /// numbers differ.
    #[inline(always)]
    pub fn put(&mut self, entry: Rc<Entry>) -> Result<(), AllocError>
        ensures ok { IsNewKey (entry_of entry.value) self.old → OnOk result (self.new ≡ put_in_order (entry_of entry.value) self.old) }
        ensures err { OnErr result (self.new ≡ self.old) }
        ensures sorted { IsInKeyOrder self.new }
    {
        let held = Held { entry };
        let place = place_of(&self.queue, &held);
        match compare_before(&self.set, &self.queue, place, &held) {
            Ordering::Greater => put_at(&mut self.set, &mut self.queue, place, held),
            Ordering::Equal => Ok(()),
            Ordering::Less => put_before(&mut self.set, &mut self.queue, place, held),
        }
    }

    /// Takes the entry with this arrival number back out. That is for want of memory alone: it walks
    /// over all entries.
    pub fn take_back(&mut self, arrival: u32)
        ensures rest { self.new ≡ without_arrival arrival self.old }
        ensures sorted { IsInKeyOrder self.new }
    {
        drop_arrival(&mut self.set, &mut self.queue, arrival);
    }

    /// The date of the entry of least key.
    pub fn first_date(&self) -> Option<u64>
        ensures first { result ≡ option_map (λ e. e.date) (slice_get self.now 0) }
        ensures none { IsNone result ↔ (self.now ≡ []) }
        ensures least { IfSome result (λ d. AllByRecursion (λ e. d ≤ e.date) self.now) }
        ensures in_order { IsInKeyOrder self.now }
    {
        let first = first_of(&self.set, &self.queue)?;
        Some(first.entry.date)
    }

    /// Takes out the entry of least key, where it is dated before `h`.
    #[inline(always)]
    pub fn release_before(&mut self, h: u64) -> Option<Rc<Entry>>
        ensures first { option_map (λ r. entry_of r.value) result ≡ released self.old h }
        ensures rest { self.new ≡ left self.old h }
        ensures none { IsNone result ↔ AllByRecursion (λ e. h ≤ e.date) self.old }
        ensures sorted { IsInKeyOrder self.new }
    {
        let first = first_of(&self.set, &self.queue)?;
        if first.entry.date >= h {
            return None;
        }
        let held = take_first(&mut self.set, &mut self.queue)?;
        Some(held.entry)
    }
}
