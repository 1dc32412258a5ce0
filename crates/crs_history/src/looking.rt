ghost use Rattle.std.specs.Prelude.{◌≡◌, ◌+ℤ◌, ◌<ℤ◌, ◌-◌, ◌^◌, pos, filter, nat_lt, true, false};
ghost use Rattle.crs_base.specs.Seen.{entry_of};
ghost use Rattle.crs_base.specs.Values.{Attribute};
ghost use Rattle.crs_base.specs.declared.symbols.Sym.{Sym};
ghost use Rattle.crs_history.specs.Histories.{entries_of};
ghost use Rattle.crs_history.specs.Dates.{IsByDate, nat_of};
ghost use Rattle.crs_history.specs.Looking.{is_before, is_since, AllBring, AreChanges, HasValueOver};

use crate::reading::to_date;
use crate::stretch::Stretch;
use crs_base::{Entry, Sym};
use std::rc::Rc;

/// The entries dated before the date, and the others.
pub(crate) fn split_by_date(items: &[Rc<Entry>], date: u64) -> (&[Rc<Entry>], &[Rc<Entry>])
    requires { IsByDate (entries_of items.now) }
    ensures before { entries_of result.0.now ≡ filter (is_before date) (entries_of items.now) }
    ensures since { entries_of result.1.now ≡ filter (is_since date) (entries_of items.now) }
{
    let place = items.partition_point(
        |e: &Rc<Entry>| -> bool
            ensures { result ≡ nat_lt e.now.value.date date }
        { e.date < date },
    );
    items.split_at(place)
}

/// The least date of an entry after this one.
fn to_date_after(t: i64) -> u64
    requires { t <ℤ pos (2 ^ 63 - 1) }
    ensures { result ≡ nat_of (t +ℤ pos 1) }
{
    to_date(t + 1)
}

/// Whether the attribute, of which these are the changes, has the value at each date of the range.
pub(crate) fn holds_over(track: &Stretch<'_>, value: Sym, from: i64, to: i64) -> bool
    requires by_date { IsByDate track.now }
    ensures yes { (a : Attribute Sym) → AreChanges a track.now → result ≡ true → HasValueOver a track.now value from to }
    ensures no { (a : Attribute Sym) → AreChanges a track.now → result ≡ false → HasValueOver a track.now value from to → ⊥ }
{
    if from >= to {
        return true;
    }
    let (until, after) = track.split(to_date_after(from));
    let (within, _) = after.split(to_date(to));
    if !within.all_bring(value) {
        return false;
    }
    match until.latest() {
        None => false,
        Some(last) => {
            let (_, of_its_date) = until.split(last.date);
            of_its_date.all_bring(value)
        }
    }
}
