ghost use Rattle.std.specs.Prelude.{◌≡◌, ◌<◌, ◌-◌, [], ◌∷◌, ◌++◌, length, take, drop, slice_get, option_map, OnOk, OnErr};
ghost use Rattle.crs_base.specs.Seen.{entry_of};
ghost use Rattle.crs_history.specs.Lanes.{lane_of, AreAlike, IsSetTo};

use crate::found::Found;
use crs_base::Entry;
use std::alloc::{AllocError, Global};
use std::collections::VecDeque;
use std::marker::Model;
use std::rc::Rc;

/// Queues of entries by number. The lane of a number that has no queue is empty.
#[derive(Drop)]
pub(crate) struct Lanes {
    queues: Vec<VecDeque<Rc<Entry>>>,
    alloc: Global,
}

impl Model for Lanes {
    ghost use Rattle.std.specs.Prelude.{List, map};
    ghost use Rattle.crs_base.specs.declared.symbols.Sym.{Sym};
    ghost use Rattle.crs_base.specs.Entry.{Entry as LogEntry};
    ghost use Rattle.crs_history.specs.Histories.{entries_of};

    ghost Value = { List (List (LogEntry Sym)) };

    ghost view = { λ l. map (λ q. entries_of q.items) l.queues.items };
}

impl Lanes {
    /// Empty lanes, which take no memory.
    pub fn new(alloc: Global) -> Lanes
        ensures { result ≡ [] }
    {
        Lanes {
            queues: Vec::new(alloc),
            alloc,
        }
    }

    /// The entries of a lane.
    pub fn lane(&self, number: usize) -> Found<'_>
        ensures { result ≡ lane_of self.now number }
    {
        match self.queues.as_slice().get(number) {
            Some(queue) => Found::of(queue),
            None => Found::none(),
        }
    }

    /// Makes sure that the number has a queue.
    fn open(&mut self, number: usize) -> Result<(), AllocError>
        ensures alike { AreAlike self.old self.new }
        ensures ok { OnOk result (number < length self.new) }
    {
        while self.queues.len() <= number {
            self.queues.push(VecDeque::new(self.alloc))?;
        }
        Ok(())
    }

    /// Adds an entry at the end of a lane.
    pub fn push(&mut self, number: usize, entry: Rc<Entry>) -> Result<(), AllocError>
        ensures ok { OnOk result (IsSetTo self.old number (lane_of self.old number ++ entry_of entry.value ∷ []) self.new) }
        ensures err { OnErr result (AreAlike self.old self.new) }
    {
        self.open(number)?;
        self.queues[number].push_back(entry)?;
        Ok(())
    }

    /// Takes out the first entry of a lane.
    pub fn pop_first(&mut self, number: usize) -> Option<Rc<Entry>>
        ensures first { option_map (λ r. entry_of r.value) result ≡ slice_get (lane_of self.old number) 0 }
        ensures rest { IsSetTo self.old number (drop 1 (lane_of self.old number)) self.new }
    {
        if self.queues.len() <= number {
            return None;
        }
        self.queues[number].pop_front()
    }

    /// Drops the last entry of a lane.
    pub fn drop_last(&mut self, number: usize)
        ensures { IsSetTo self.old number (take (length (lane_of self.old number) - 1) (lane_of self.old number)) self.new }
    {
        if self.queues.len() <= number {
            return;
        }
        let _ = self.queues[number].pop_back();
    }
}
