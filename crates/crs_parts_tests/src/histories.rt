//! Histories: the changes that are kept, what a range has, and the values that hold across the floor.
ghost use Rattle.std.specs.Prelude.{◌≡◌, [], IfOk};

use crs_base::{Entry, Sym, SymList, Text};
use crs_history::{Found, History, Range};
use std::alloc::{AllocError, Global};
use std::marker::Model;
use std::rc::Rc;
use std::test::Fail;

/// An entry without a text.
fn entry_with(
    alloc: Global,
    arrival: u32,
    date: u64,
    name: u32,
    args: SymList,
    change: Option<(Sym, Sym)>,
) -> Result<Rc<Entry>, AllocError>
    ensures { IfOk result (λ r. (r.value.date ≡ date) × (r.value.arrival ≡ arrival) × (r.value.text ≡ [])) }
{
    Ok(Rc::new(
        alloc,
        Entry {
            arrival,
            date,
            name: Sym(name),
            args,
            change,
            text: Text::new(alloc, b"")?,
        },
    )?)
}

/// An entry without arguments.
pub(crate) fn entry(
    alloc: Global,
    arrival: u32,
    date: u64,
    name: u32,
    change: Option<(Sym, Sym)>,
) -> Result<Rc<Entry>, AllocError>
    ensures { IfOk result (λ r. (r.value.date ≡ date) × (r.value.arrival ≡ arrival) × (r.value.text ≡ [])) }
{
    entry_with(alloc, arrival, date, name, SymList::from_slice(&[]), change)
}

/// A history with what it takes to add an entry behind all others.
#[derive(Drop)]
pub(crate) struct Filled {
    pub(crate) history: History,
    alloc: Global,
    last: u64,
    count: u32,
}

impl Model for Filled {
    ghost use Rattle.std.specs.Prelude.{◌≡◌, ◌<◌, ◌≤◌, ◌≤ℤ◌, pos, []};
    ghost use Rattle.std.specs.List.{AllByRecursion};
    ghost use Rattle.crs_history.specs.Histories.{HistoryState};

    ghost Value = { HistoryState };

    ghost view = { λ f. f.history };

    ghost invariant = { λ f. AllByRecursion (λ e. (e.date ≤ f.last) × (e.arrival < f.count) × (e.text ≡ [])) f.history.entries × (f.history.floor ≤ℤ pos f.last) };
}

impl Filled {
    pub(crate) fn new(alloc: Global) -> Filled {
        Filled {
            history: History::new(alloc),
            alloc,
            last: 0,
            count: 0,
        }
    }

    /// The same, where each name below 10 is looked up by its first argument.
    fn by_first_argument(alloc: Global) -> Result<Filled, AllocError> {
        let mut places = Vec::new(alloc);
        for _ in 0..10 {
            places.push(Some(1))?;
        }
        Ok(Filled {
            history: History::with_look_ups(alloc, places),
            alloc,
            last: 0,
            count: 0,
        })
    }

    /// Adds an entry, where it isn't dated before the last one.
    pub(crate) fn add(
        &mut self,
        date: u64,
        name: u32,
        change: Option<(Sym, Sym)>,
    ) -> Result<(), AllocError> {
        self.add_with(date, name, SymList::from_slice(&[]), change)
    }

    /// The same, with these arguments.
    fn add_with(
        &mut self,
        date: u64,
        name: u32,
        args: SymList,
        change: Option<(Sym, Sym)>,
    ) -> Result<(), AllocError> {
        if date < self.last || self.count == u32::MAX {
            return Ok(());
        }
        let entry = entry_with(self.alloc, self.count, date, name, args, change)?;
        self.history.push(entry)?;
        self.last = date;
        self.count += 1;
        Ok(())
    }

    /// Forgets what is before the date, where that isn't after the last one.
    fn forget(&mut self, date: u32) {
        if date as u64 <= self.last {
            self.history.forget_before(date as i64);
        }
    }
}

/// A date, a name and a change.
type Row = (u64, u32, Option<(Sym, Sym)>);

/// A history of these entries.
fn filled_with(alloc: Global, rows: &[Row]) -> Result<Filled, AllocError> {
    let mut filled = Filled::new(alloc);
    for row in rows {
        filled.add(row.0, row.1, row.2)?;
    }
    Ok(filled)
}

/// How many entries there are.
fn count_of(range: Range<'_>) -> usize {
    let mut count: usize = 0;
    for _ in range {
        count = count.saturating_add(1);
    }
    count
}

#[test]
fn the_last_changes_are_kept(rt: HostRuntime) -> Result<(), Fail> {
    let alloc = rt.alloc();
    assert!(rt; Filled::new(alloc).history.len() == 0);
    let change = Some((Sym(8), Sym(9)));
    let rows = [
        (1, 0, change),
        (2, 0, change),
        (3, 1, change),
        (4, 2, None),
        (6, 0, change),
    ];
    let Filled { mut history, .. } = filled_with(alloc, &rows)?;
    for (date, kept) in [(1, 5), (5, 3), (4, 3), (6, 3), (7, 2), (90, 2)] {
        history.forget_before(date);
        assert!(rt; history.len() == kept);
    }
    Ok(())
}

#[test]
fn a_range_has_the_entries_of_its_name(rt: HostRuntime) -> Result<(), Fail> {
    let rows = [
        (1, 5, None),
        (2, 0, None),
        (3, 5, None),
        (3, 9, None),
        (3, 5, None),
        (6, 4, None),
        (7, 5, None),
    ];
    let filled = filled_with(rt.alloc(), &rows)?;
    for (name, from, to, count) in [
        (5, 0, 8, 4),
        (5, 1, 7, 3),
        (5, 2, 7, 2),
        (5, 4, 7, 0),
        (5, 7, 3, 0),
        (9, -4, 4, 1),
        (9, 4, 9, 0),
        (7, 0, 9, 0),
        (90, 0, 9, 0),
    ] {
        assert!(rt; count_of(filled.history.range(Sym(name), from, to)) == count);
    }
    Ok(())
}

/// How many entries were found.
fn found_count(found: Found<'_>) -> usize {
    let mut count: usize = 0;
    for _ in found {
        count = count.saturating_add(1);
    }
    count
}

#[test]
fn what_has_the_known_symbols_is_found(rt: HostRuntime) -> Result<(), Fail> {
    let mut filled = Filled::by_first_argument(rt.alloc())?;
    for (date, name, first, second) in [
        (1, 5, 11, 7),
        (2, 5, 12, 7),
        (3, 5, 11, 8),
        (4, 6, 11, 7),
        (4, 5, 13, 7),
    ] {
        let args = SymList::from_slice(&[Sym(first), Sym(second)]);
        filled.add_with(date, name, args, None)?;
    }
    let history = &filled.history;
    let seven = Some(Sym(7));
    assert!(rt; found_count(history.find(Sym(5), &[Some(Sym(11))], 0, 9)) == 2);
    assert!(rt; found_count(history.find(Sym(5), &[Some(Sym(11)), seven], 2, 9)) == 1);
    assert!(rt; found_count(history.find(Sym(5), &[Some(Sym(14))], 0, 9)) == 0);
    assert!(rt; found_count(history.find(Sym(5), &[None, seven], 0, 9)) == 5);
    assert!(rt; count_of(history.range(Sym(5), 0, 9)) == 4);
    Ok(())
}

/// Whether the attribute of this name has the value in a stretch of dates.
fn holds(history: &History, name: u32, value: u32, from: i64, to: i64) -> bool {
    let args = SymList::from_slice(&[]);
    history.value_over(Sym(name), &args, Sym(value), from, to)
}

/// The history of three changes of one attribute, up to date 5.
fn changed(alloc: Global) -> Result<Filled, AllocError> {
    let mut filled = filled_with(
        alloc,
        &[
            (1, 0, Some((Sym(8), Sym(9)))),
            (3, 0, Some((Sym(9), Sym(7)))),
            (3, 0, Some((Sym(7), Sym(7)))),
            (5, 1, None),
        ],
    )?;
    filled.forget(5);
    Ok(filled)
}

#[test]
fn a_value_holds_across_the_floor(rt: HostRuntime) -> Result<(), Fail> {
    let mut filled = changed(rt.alloc())?;
    assert!(rt; filled.history.len() == 3);
    assert!(rt; holds(&filled.history, 0, 7, 5, 9));
    filled.add(6, 0, Some((Sym(7), Sym(9))))?;
    for (value, from, to, wanted) in [
        (7, 5, 6, true),
        (7, 5, 7, false),
        (9, 5, 7, false),
        (9, 6, 40, true),
        (9, 6, 6, true),
    ] {
        assert!(rt; holds(&filled.history, 0, value, from, to) == wanted);
    }
    Ok(())
}

#[test]
fn a_value_holds_where_its_change_is_forgotten(rt: HostRuntime) -> Result<(), Fail> {
    let mut filled = changed(rt.alloc())?;
    filled.add(6, 0, Some((Sym(7), Sym(9))))?;
    filled.forget(6);
    assert!(rt; filled.history.len() == 3);
    filled.history.forget_before(7);
    assert!(rt; filled.history.len() == 1);
    assert!(rt; holds(&filled.history, 0, 9, 7, 40));
    assert!(rt; !holds(&filled.history, 1, 9, 7, 40));
    assert!(rt; count_of(filled.history.range(Sym(0), 0, 40)) == 0);
    Ok(())
}

/// Whether there are changes up to the date, and all those of the greatest such date bring the value: told
/// as dates and values, in the order of dates.
fn has_value(told: &[(u32, u32)], value: u32, date: u32) -> bool {
    let mut latest = None;
    let mut agreed = false;
    for row in told {
        if row.0 <= date {
            agreed = row.1 == value && (agreed || latest != Some(row.0));
            latest = Some(row.0);
        }
    }
    agreed
}

/// The same at each date of a stretch, one after the other.
fn has_value_over(told: &[(u32, u32)], value: u32, from: u32, to: u32) -> bool {
    for date in from..to {
        if !has_value(told, value, date) {
            return false;
        }
    }
    true
}

/// Whether the history answers so of each stretch from the date on, for two values.
fn agrees_from(history: &History, told: &[(u32, u32)], from: u32) -> bool {
    for to in 0..10 {
        let seven = holds(history, 0, 7, from as i64, to as i64);
        let nine = holds(history, 0, 9, from as i64, to as i64);
        if seven != has_value_over(told, 7, from, to) || nine != has_value_over(told, 9, from, to) {
            return false;
        }
    }
    true
}

/// The same of each stretch that isn't before the floor.
fn agrees(history: &History, told: &[(u32, u32)], floor: u32) -> bool {
    for from in floor..10 {
        if !agrees_from(history, told, from) {
            return false;
        }
    }
    true
}

#[test]
fn values_are_those_of_a_plain_walk(rt: HostRuntime) -> Result<(), Fail> {
    let told = [
        (1, 7),
        (1, 7),
        (2, 7),
        (4, 9),
        (4, 7),
        (5, 7),
        (5, 7),
        (7, 9),
        (8, 9),
    ];
    let mut filled = Filled::new(rt.alloc());
    for row in &told {
        filled.add(row.0 as u64, 0, Some((Sym(8), Sym(row.1))))?;
    }
    let Filled { mut history, .. } = filled;
    for floor in 0..10 {
        history.forget_before(floor as i64);
        assert!(rt; agrees(&history, &told, floor));
    }
    Ok(())
}

#[test]
fn what_is_dropped_is_given_back(rt: HostRuntime) -> Result<(), Fail> {
    let alloc = rt.alloc();
    let change = Some((Sym(8), Sym(9)));
    let rows = [(1, 0, change), (2, 0, change), (4, 2, None), (6, 0, change)];
    let Filled { mut history, .. } = filled_with(alloc, &rows)?;
    let mut spare = Vec::new(alloc);
    for (date, kept, dropped) in [(1, 4, 0), (5, 2, 2), (6, 2, 2), (7, 1, 3)] {
        history.forget_into(date, &mut spare);
        assert!(rt; history.len() == kept);
        assert!(rt; spare.len() == dropped);
    }
    Ok(())
}
