ghost use Rattle.std.specs.Prelude.{◌≡◌, ◌≤◌, ◌≤ℤ◌, ◌<ℤ◌, ◌^◌, pos, neg_ℤ, [], ◌∷◌, ◌++◌, length, max, vec_len, true, false, OnOk, OnErr, List as Items};
ghost use Rattle.std.specs.Int.{int_max};
ghost use Rattle.crs_base.specs.declared.symbols.Sym.{Sym};
ghost use Rattle.crs_base.specs.Entry.{Entry as LogEntry, IsInKeyOrder};
ghost use Rattle.crs_base.specs.Seen.{entry_of};
ghost use Rattle.crs_base.specs.Sifted.{Sifts};
ghost use Rattle.crs_history.specs.Histories.{IsAfterAll, IsKept, StandsFor};
ghost use Rattle.crs_history.specs.Keyed.{IsLike};
ghost use Rattle.crs_history.specs.Looking.{Finds, IsNamedIn, HasValueOver};

use crate::found::Found;
use crate::holdings::Holdings;
use crate::looking::holds_over;
use crate::range::Range;
use crate::reading::to_date;
use crs_base::{Entry, Sym, SymList};
use std::alloc::{AllocError, Global};
use std::marker::Model;
use std::rc::Rc;

/// The floor of a new history, in ticks: -2^45, before every horizon less any finite reach.
const LOWEST: i64 = -35_184_372_088_832;

/// So many dropped entries are kept for use again at most: where a mark drops many, most of their memory goes.
const SPARE: usize = 64;

/// The settled entries that are still needed, in key order: those dated at or after its floor, and
/// for each attribute its changes of the greatest date before the floor. Dates and the floor are
/// ticks of the log's clock.
#[derive(Drop)]
pub struct History {
    held: Holdings,
    floor: i64,
    alloc: Global,
}

impl Model for History {
    ghost use Rattle.crs_history.specs.Histories.{HistoryState};
    ghost use Rattle.crs_history.specs.Holdings.{held_of, IsSplitAt};

    ghost Value = { HistoryState };

    ghost view = { λ h. record { entries = held_of h.held; floor = h.floor } };

    ghost invariant = { λ h. IsSplitAt h.floor h.held };
}

impl History {
    /// A history without entries, which takes no memory. Its floor is -2^45. Each look-up goes through all
    /// entries of the dates: `with_look_ups` tells it which there will be.
    pub fn new(alloc: Global) -> History
        ensures { result ≡ record { entries = []; floor = neg_ℤ (pos (2 ^ 45)) } }
    {
        History::with_look_ups(alloc, Vec::new(alloc))
    }

    /// The same, told which names are looked up: by the number of a name the places of the arguments that
    /// each look-up of it knows, as bits from the least, or none where nobody looks for it. Look-ups that
    /// know less, or of other names, only take longer.
    pub fn with_look_ups(alloc: Global, places: Vec<Option<u8>>) -> History
        ensures { result ≡ record { entries = []; floor = neg_ℤ (pos (2 ^ 45)) } }
    {
        History {
            held: Holdings::new(alloc, places),
            floor: LOWEST,
            alloc,
        }
    }

    /// How many entries are held.
    pub fn len(&self) -> usize
        ensures len { result ≡ length self.now.entries }
        ensures in_order { IsInKeyOrder self.now.entries }
    {
        self.held.len()
    }

    /// Adds an entry, whose key is after those of all held ones. After a refusal the history is as
    /// it was.
    pub fn push(&mut self, entry: Rc<Entry>) -> Result<(), AllocError>
        requires after { IsAfterAll self.old.entries (entry_of entry.value) }
        requires from_floor { self.old.floor ≤ℤ pos entry.value.date }
        ensures ok { OnOk result (self.new ≡ record { entries = self.old.entries ++ entry_of entry.value ∷ []; floor = self.old.floor }) }
        ensures err { OnErr result (self.new ≡ self.old) }
        ensures stands { OnOk result ((settled : Items (LogEntry Sym)) → StandsFor settled self.old → StandsFor (settled ++ entry_of entry.value ∷ []) self.new) }
    {
        self.held.push(entry)
    }

    /// The held entries of the name dated from the one date on and before the other, in key order.
    /// Where the first is before the floor, they begin at the floor.
    pub fn range(&self, name: Sym, from: i64, to: i64) -> Range<'_>
        ensures held { Sifts (IsNamedIn name (int_max self.now.floor from) to) self.now.entries result }
        ensures in_order { IsInKeyOrder result }
        ensures all_in_order { IsInKeyOrder self.now.entries }
        ensures stands { self.now.floor ≤ℤ from → (settled : Items (LogEntry Sym)) → StandsFor settled self.now → Sifts (IsNamedIn name from to) settled result }
    {
        Range::of(self.find(name, &[], from, to), name)
    }

    /// The held entries dated from the one date on and before the other, in key order: all of the name whose
    /// arguments have the known symbols at their places, and maybe others. Where the first date is before
    /// the floor, they begin at the floor. Places behind the known ones, and those of none, aren't looked at.
    pub fn find(&self, name: Sym, known: &[Option<Sym>], from: i64, to: i64) -> Found<'_>
        ensures held { Finds (IsLike name known.now) (int_max self.now.floor from) to self.now.entries result }
        ensures in_order { IsInKeyOrder result }
        ensures all_in_order { IsInKeyOrder self.now.entries }
        ensures stands { self.now.floor ≤ℤ from → (settled : Items (LogEntry Sym)) → StandsFor settled self.now → Finds (IsLike name known.now) from to settled result }
    {
        let found = self.held.find(name, known);
        found.since(to_date(from)).before(to_date(to))
    }

    /// Whether the attribute has the value at each date from the one on and before the other, where
    /// the first isn't before the floor.
    pub fn value_over(&self, name: Sym, args: &SymList, value: Sym, from: i64, to: i64) -> bool
        ensures yes { result ≡ true → self.now.floor ≤ℤ from → (settled : Items (LogEntry Sym)) → StandsFor settled self.now → HasValueOver (record { name = name; args = args.now }) settled value from to }
        ensures no { result ≡ false → self.now.floor ≤ℤ from → (settled : Items (LogEntry Sym)) → StandsFor settled self.now → HasValueOver (record { name = name; args = args.now }) settled value from to → ⊥ }
    {
        holds_over(&self.held.track(name, args), value, from, to)
    }

    /// Raises the floor to the date, if it is lower, and drops the entries dated before the floor
    /// but, for each attribute, its changes of the greatest date before the floor. It takes no
    /// memory, and for each entry that leaves time in the logarithm of how many are held.
    pub fn forget_before(&mut self, date: i64)
        ensures floor { self.new.floor ≡ int_max self.old.floor date }
        ensures low { date ≤ℤ self.old.floor → self.new ≡ self.old }
        ensures held { self.old.floor <ℤ date → Sifts (IsKept self.old.entries date) self.old.entries self.new.entries }
        ensures stands { (settled : Items (LogEntry Sym)) → StandsFor settled self.old → StandsFor settled self.new }
    {
        let mut spare = Vec::new(self.alloc);
        self.forget(date, &mut spare, 0);
    }

    /// The same, and puts entries that it drops among the spare ones, while these are fewer than 64: where
    /// nobody else has such an entry, the next one may be made in its place. It takes memory for the spare
    /// ones alone, and drops the entry where there is none.
    pub fn forget_into(&mut self, date: i64, spare: &mut Vec<Rc<Entry>>)
        ensures floor { self.new.floor ≡ int_max self.old.floor date }
        ensures low { date ≤ℤ self.old.floor → self.new ≡ self.old }
        ensures held { self.old.floor <ℤ date → Sifts (IsKept self.old.entries date) self.old.entries self.new.entries }
        ensures stands { (settled : Items (LogEntry Sym)) → StandsFor settled self.old → StandsFor settled self.new }
        ensures spare { vec_len spare.new ≤ max (vec_len spare.old) 64 }
    {
        self.forget(date, spare, SPARE);
    }

    /// Raises the floor, drops entries, and puts these among the spare ones, while they are fewer than the
    /// room.
    fn forget(&mut self, date: i64, spare: &mut Vec<Rc<Entry>>, room: usize)
        ensures floor { self.new.floor ≡ int_max self.old.floor date }
        ensures low { date ≤ℤ self.old.floor → self.new ≡ self.old }
        ensures held { self.old.floor <ℤ date → Sifts (IsKept self.old.entries date) self.old.entries self.new.entries }
        ensures stands { (settled : Items (LogEntry Sym)) → StandsFor settled self.old → StandsFor settled self.new }
        ensures spare { vec_len spare.new ≤ max (vec_len spare.old) room }
    {
        if date <= self.floor {
            return;
        }
        let limit = to_date(date);
        while self.held.forget_one(limit, spare, room) {}
        self.floor = date;
    }
}
