// What is known of a log that was read in part, and of one that was read whole.
ghost use Rattle.std.specs.Prelude.{◌≡◌, ◌<◌, ◌≤◌, ◌^◌, nat_le, [], false, length, OnOk, IfOk};
ghost use Rattle.crs_base.specs.Words.{Ordered};
ghost use Rattle.crs_audit.specs.Marked.{marked_at};
ghost use Rattle.crs_audit.specs.Notes.{number_of};
ghost use Rattle.crs_audit.specs.Runs.{last_numbered, entries_of, IsKeyed};
ghost use Rattle.std.specs.List.Sorted.{IsPermutation, IsSortedBy};
ghost use Rattle.std.specs.Ordering.{is_lt};
ghost use Rattle.crs_base.specs.Entry.{entry_cmp};
ghost use Rattle.crs_base.specs.Seen.{entry_of};

use crs_base::{Entry, List};
use crs_model::Mark;
use std::alloc::{AllocError, Global};
use std::rc::Rc;

/// The number of the mark `end`: no clock has it.
pub const END: u64 = 1 << 42;

/// An accepted mark by its number: the horizon behind it, and how many entries were accepted before.
#[derive(Clone, Copy, Debug, Drop)]
pub struct Stand {
    pub number: u64,
    pub horizon: u64,
    pub accepted: u32,
}

/// A log that was read in part.
#[derive(Drop)]
pub struct Run {
    /// The accepted entries: each stands at the place of its arrival number.
    pub entries: List<Rc<Entry>>,
    /// The accepted marks in their order. Their numbers never fall.
    pub marks: List<Stand>,
    pub delay: u64,
    pub last: u64,
    pub horizon: u64,
    /// Whether an `end` was accepted.
    pub ended: bool,
}

impl Run {
    /// Nothing was read.
    pub fn new(alloc: Global) -> Run
        ensures { result ≡ record { entries = []; marks = []; delay = 0; last = 0; horizon = 0; ended = false } }
    {
        Run {
            entries: List::new(alloc),
            marks: List::new(alloc),
            delay: 0,
            last: 0,
            horizon: 0,
            ended: false,
        }
    }

    /// Accepts a mark.
    pub fn put_mark(&mut self, number: u64, horizon: u64) -> Result<(), AllocError>
        requires { length self.old.entries < 2 ^ 32 }
        ensures { OnOk result (self.new ≡ marked_at self.old number horizon) }
    {
        self.last = number;
        self.horizon = horizon;
        let accepted = self.entries.len() as u32;
        self.marks.push(Stand {
            number,
            horizon,
            accepted,
        })
    }
}

/// The number of a mark.
fn number_of(mark: Mark) -> u64
    ensures { result ≡ number_of mark }
{
    match mark {
        Mark::Clock(t) => t,
        Mark::Finish => END,
    }
}

/// The last of the marks that has this number.
fn last_at(marks: &[Stand], number: u64) -> Option<Stand>
    requires { Ordered (λ r s. r.number ≤ s.number) marks.now }
    ensures { result ≡ last_numbered marks.now number }
{
    let behind = marks.partition_point(
        |m: &Stand| -> bool
            ensures { result ≡ nat_le m.now.number number }
        { m.number <= number },
    );
    if behind == 0 {
        return None;
    }
    let last = marks[behind - 1];
    if last.number == number {
        Some(last)
    } else {
        None
    }
}

/// A log that was read whole: its entries by arrival, the same in key order, and its marks.
#[derive(Drop)]
pub struct Log {
    pub entries: List<Rc<Entry>>,
    pub by_key: Vec<Rc<Entry>>,
    pub marks: List<Stand>,
}

impl Log {
    /// The last accepted mark of this number.
    pub fn stand(&self, mark: Mark) -> Option<Stand>
        requires { Ordered (λ r s. r.number ≤ s.number) self.now.marks }
        ensures { result ≡ last_numbered self.now.marks (number_of mark) }
    {
        last_at(self.marks.as_slice(), number_of(mark))
    }
}

/// The same entries, which are shared.
fn shared(alloc: Global, entries: &[Rc<Entry>]) -> Result<Vec<Rc<Entry>>, AllocError>
    ensures { IfOk result (λ copies. entries_of copies.items ≡ entries_of entries.now) }
{
    let mut copies = Vec::new(alloc);
    for entry in entries {
        copies.push(entry.clone()?)?;
    }
    Ok(copies)
}

/// Puts entries in key order.
fn put_in_order(entries: &mut Vec<Rc<Entry>>)
    ensures moved { IsPermutation entries.old.items entries.new.items }
    ensures sorted { IsSortedBy (λ r s. is_lt (entry_cmp (entry_of r.value) (entry_of s.value))) entries.new.items }
{
    entries.sort_unstable_by(|this: &Rc<Entry>, that: &Rc<Entry>| this.key_cmp(that));
}

/// A run whose log ended.
pub fn ended(alloc: Global, run: Run) -> Result<Log, AllocError>
    ensures { IfOk result (λ log. (log.entries ≡ run.entries) × (log.marks ≡ run.marks) × IsKeyed run.entries log.by_key.items) }
{
    let mut by_key = shared(alloc, run.entries.as_slice())?;
    put_in_order(&mut by_key);
    let Run { entries, marks, .. } = run;
    Ok(Log {
        entries,
        by_key,
        marks,
    })
}
