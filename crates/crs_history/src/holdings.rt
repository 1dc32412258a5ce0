ghost use Rattle.std.specs.Prelude.{◌≡◌, ◌<◌, ◌≤◌, [], ◌∷◌, ◌++◌, length, max, vec_len, true, false, OnOk, OnErr, List as Items};
ghost use Rattle.std.specs.List.{AllByRecursion};
ghost use Rattle.crs_base.specs.Entry.{Entry as LogEntry, IsInKeyOrder};
ghost use Rattle.crs_base.specs.Seen.{entry_of};
ghost use Rattle.crs_base.specs.Sifted.{Sifts};
ghost use Rattle.crs_base.specs.declared.symbols.Sym.{Sym};
ghost use Rattle.crs_base.specs.Values.{Attribute, IsChange};
ghost use Rattle.crs_history.specs.Histories.{IsAfterAll, entries_of};
ghost use Rattle.crs_history.specs.Dates.{IsByDate};
ghost use Rattle.crs_history.specs.Dropping.{Drops};
ghost use Rattle.crs_history.specs.Keyed.{AreKeyed, IsLike};
ghost use Rattle.crs_history.specs.Holdings.{held_of, IsChanging, AreLatest, AreBefore, IsPast, Extends, weight};
ghost use Rattle.crs_history.specs.Tracks.{track_of, AreOwned, AreSame};

use crate::found::Found;
use crate::keyed::Keyed;
use crate::stretch::Stretch;
use crate::tracks::Tracks;
use crs_base::{Entry, Sym, SymList};
use std::alloc::{AllocError, Global};
use std::collections::VecDeque;
use std::marker::Model;
use std::rc::Rc;

/// What a history holds, whatever its floor: older changes, and behind them the ring, in key order.
#[derive(Drop)]
pub(crate) struct Holdings {
    ring: VecDeque<Rc<Entry>>,
    /// The ring's entries by what tells them apart where they are looked up.
    keyed: Keyed,
    /// All held changes by attribute.
    tracks: Tracks,
    /// How many older changes there are. Which they are the tracks tell, and their order is that of their keys:
    /// no list of them is kept. With a tree of all held changes in key order, 20,000 lines that change values
    /// and look at them took 4 million instructions of 116 more.
    count: usize,
}

impl Model for Holdings {
    ghost use Rattle.crs_history.specs.Histories.{entries_of};
    ghost use Rattle.crs_history.specs.Holdings.{HoldingsState, AreCounted, AreHoldings};
    ghost use Rattle.crs_history.specs.Older.{older_of};

    ghost Value = { HoldingsState };

    ghost view = { λ h. record { older = older_of h.tracks.lanes (entries_of h.ring.items); ring = entries_of h.ring.items } };

    ghost invariant = { λ h. AreHoldings (older_of h.tracks.lanes (entries_of h.ring.items)) (entries_of h.ring.items) h.keyed h.tracks × AreCounted h.count (older_of h.tracks.lanes (entries_of h.ring.items)) (entries_of h.ring.items) };
}

/// No more entries than that are held, which no memory would hold.
const MOST: usize = isize::MAX as usize;

/// Adds a change to its track. After a refusal all tracks are as they were.
fn push_change(tracks: &mut Tracks, entry: &Rc<Entry>) -> Result<(), AllocError>
    ensures tracks { OnOk result ((a : Attribute Sym) → Extends (IsChange a) (entry_of entry.now.value) (track_of tracks.old a) (track_of tracks.new a)) }
    ensures owned { AreOwned tracks.old → AreOwned tracks.new }
    ensures err { OnErr result (AreSame tracks.old tracks.new) }
{
    if entry.change.is_none() {
        return Ok(());
    }
    tracks.push(entry.clone()?)
}

/// Takes the first entry out of the ring and of its lane.
#[inline(always)]
fn pop_first(ring: &mut VecDeque<Rc<Entry>>, keyed: &mut Keyed) -> Option<Rc<Entry>>
    ensures { (e : LogEntry Sym) (rest : Items (LogEntry Sym)) → entries_of ring.old.items ≡ e ∷ rest → (entries_of ring.new.items ≡ rest) × (AreKeyed (e ∷ rest) keyed.old → AreKeyed rest keyed.new) }
{
    let first = ring.pop_front()?;
    keyed.pop_first(&first);
    Some(first)
}

/// Keeps what was forgotten, where there are fewer than that and memory suffices.
#[inline(always)]
fn keep(spare: &mut Vec<Rc<Entry>>, room: usize, forgotten: Option<Rc<Entry>>)
    ensures { vec_len spare.new ≤ max (vec_len spare.old) room }
{
    if let Some(entry) = forgotten {
        if spare.len() < room {
            let _ = spare.push(entry);
        }
    }
}

impl Holdings {
    /// No entries, which take no memory. By the number of a name, the places of the arguments that each
    /// look-up of it knows, as bits from the least.
    pub fn new(alloc: Global, places: Vec<Option<u8>>) -> Holdings
        ensures { result ≡ record { older = []; ring = [] } }
    {
        Holdings {
            ring: VecDeque::new(alloc),
            keyed: Keyed::new(alloc, places),
            tracks: Tracks::new(alloc),
            count: 0,
        }
    }

    /// How many entries are held.
    pub fn len(&self) -> usize
        ensures len { result ≡ length (held_of self.now) }
        ensures in_order { IsInKeyOrder (held_of self.now) }
    {
        self.count + self.ring.len()
    }

    /// Adds an entry behind all others. After a refusal what is held is as it was.
    pub fn push(&mut self, entry: Rc<Entry>) -> Result<(), AllocError>
        requires { IsAfterAll (held_of self.old) (entry_of entry.value) }
        ensures ok { OnOk result (self.new ≡ record { older = self.old.older; ring = self.old.ring ++ entry_of entry.value ∷ [] }) }
        ensures err { OnErr result (self.new ≡ self.old) }
    {
        if self.len() >= MOST {
            return Err(AllocError);
        }
        self.ring.reserve(1)?;
        self.keyed.push(&entry)?;
        if let Err(refused) = push_change(&mut self.tracks, &entry) {
            self.keyed.drop_last(&entry);
            return Err(refused);
        }
        self.ring.push_back_reserved(entry);
        Ok(())
    }

    /// The ring's entries of the name with the known symbols, and maybe others.
    pub fn find(&self, name: Sym, known: &[Option<Sym>]) -> Found<'_>
        ensures found { Drops (λ e. IsLike name known.now e → ⊥) self.now.ring result }
        ensures in_order { IsInKeyOrder result }
        ensures all_in_order { IsInKeyOrder (held_of self.now) }
        ensures by_date { IsByDate result }
    {
        match self.keyed.find(name, known) {
            Some(range) => range,
            None => Found::of(&self.ring),
        }
    }

    /// The held changes of the attribute.
    pub fn track(&self, name: Sym, args: &SymList) -> Stretch<'_>
        ensures changes { Sifts (IsChange (record { name = name; args = args.now })) (held_of self.now) result }
        ensures by_date { IsByDate result }
    {
        self.tracks.track(name, args)
    }

    /// Takes the first entry, which is dated before the date, out of the ring, or drops a change of
    /// its attribute that is dated before it. Answers whether there was one. What isn't held any more goes to
    /// the spare entries, where these are fewer than the room.
    pub fn forget_one(&mut self, date: u64, spare: &mut Vec<Rc<Entry>>, room: usize) -> bool
        ensures latest { AreLatest self.new.older }
        ensures before { AreBefore date self.old.older → AreBefore date self.new.older }
        ensures past { Drops (IsPast (held_of self.old) date) (held_of self.old) (held_of self.new) }
        ensures shrinks { result ≡ true → weight self.new < weight self.old }
        ensures done { result ≡ false → AllByRecursion (λ e. date ≤ e.date) self.new.ring }
        ensures spare { vec_len spare.new ≤ max (vec_len spare.old) room }
    {
        let Some(first) = self.ring.front() else {
            return false;
        };
        if first.date >= date {
            return false;
        }
        if first.change.is_none() {
            keep(spare, room, pop_first(&mut self.ring, &mut self.keyed));
            return true;
        }
        if let Some(overtaken) = self.tracks.pop_before(first.name, &first.args, first.date) {
            self.count -= 1;
            keep(spare, room, Some(overtaken));
            return true;
        }
        self.count += 1;
        let _ = pop_first(&mut self.ring, &mut self.keyed);
        true
    }
}
