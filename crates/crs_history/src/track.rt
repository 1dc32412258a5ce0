ghost use Rattle.std.specs.Prelude.{◌≡◌, ◌-◌, [], ◌∷◌, ◌++◌, true, false, length, take, drop, slice_get, option_map, OnOk, OnErr};
ghost use Rattle.crs_base.specs.Seen.{entry_of};
ghost use Rattle.crs_history.specs.Runs.{told_of, BringSame, BringOthers, Follows};

use crate::reading::brings;
use crate::stretch::Stretch;
use crs_base::Entry;
use std::alloc::{AllocError, Global};
use std::collections::VecDeque;
use std::marker::Model;
use std::rc::Rc;

/// A change in its track. What is told again and again makes no look-up longer: whether a stretch of a track
/// has one value is seen at its last change. To go through the stretch instead took the whole program 9 times
/// the instructions where each window has 16,000 changes, and 16 times where it has 32,000.
#[derive(Drop)]
pub(crate) struct Change {
    pub entry: Rc<Entry>,
    /// So many changes right before it in its track bring its value, those that left it counted too. It
    /// stands still at its type's end.
    pub repeats: usize,
}

/// An attribute's changes, in key order.
#[derive(Drop)]
pub(crate) struct Track {
    changes: VecDeque<Change>,
}

impl Model for Track {
    ghost use Rattle.std.specs.Prelude.{List, map};
    ghost use Rattle.crs_base.specs.declared.symbols.Sym.{Sym};
    ghost use Rattle.crs_base.specs.Entry.{Entry as LogEntry};
    ghost use Rattle.crs_history.specs.Runs.{changes_of, AreRuns};

    ghost Value = { List (LogEntry Sym) };

    ghost view = { λ t. changes_of t.changes.items };

    ghost invariant = { λ t. AreRuns t.changes.items };
}

/// Whether both bring one value.
fn bring_same(before: &Entry, after: &Entry) -> bool
    ensures yes { result ≡ true → BringSame (entry_of before.now) (entry_of after.now) }
    ensures no { result ≡ false → BringOthers (entry_of before.now) (entry_of after.now) }
{
    match &before.change {
        Some((_, new)) => brings(after, *new),
        None => false,
    }
}

/// How many changes right before the entry bring its value, where this one stands before it.
fn repeats_after(last: &Change, entry: &Entry) -> usize
    ensures { Follows (told_of last.now) (record { entry = entry_of entry.now; repeats = result }) }
{
    if bring_same(&last.entry, entry) {
        last.repeats.saturating_add(1)
    } else {
        0
    }
}

/// Makes room for a first change, and for that alone, since many attributes have one change that is kept: where a
/// log names 640,000 of them, each takes 256 bytes in place of 304.
fn reserve_first(changes: &mut VecDeque<Change>) -> Result<(), AllocError>
    ensures { changes.new.items ≡ changes.old.items }
{
    if changes.is_empty() {
        changes.reserve_exact(1)?;
    }
    Ok(())
}

impl Track {
    /// No changes, which take no memory.
    pub fn new(alloc: Global) -> Track
        ensures { result ≡ [] }
    {
        Track {
            changes: VecDeque::new(alloc),
        }
    }

    /// All its changes.
    pub fn whole(&self) -> Stretch<'_>
        ensures { result ≡ self.now }
    {
        let (front, back) = self.changes.as_slices();
        Stretch { front, back }
    }

    /// Adds a change at the end.
    pub fn push(&mut self, entry: Rc<Entry>) -> Result<(), AllocError>
        ensures ok { OnOk result (self.new ≡ self.old ++ entry_of entry.value ∷ []) }
        ensures err { OnErr result (self.new ≡ self.old) }
    {
        let repeats = match self.changes.back() {
            Some(last) => repeats_after(last, &entry),
            None => 0,
        };
        reserve_first(&mut self.changes)?;
        self.changes.push_back(Change { entry, repeats })?;
        Ok(())
    }

    /// Takes out the first change.
    pub fn pop_first(&mut self) -> Option<Rc<Entry>>
        ensures first { option_map (λ r. entry_of r.value) result ≡ slice_get self.old 0 }
        ensures rest { self.new ≡ drop 1 self.old }
    {
        let first = self.changes.pop_front()?;
        Some(first.entry)
    }
}
