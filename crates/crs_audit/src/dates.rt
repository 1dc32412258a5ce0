// Entries in the order of their dates, parted at a date.
ghost use Rattle.std.specs.Prelude.{◌≡◌, nat_lt, filter};
ghost use Rattle.crs_audit.specs.CitedDates.{IsByDate, nat_of, is_before, is_since, dated_in};
ghost use Rattle.crs_audit.specs.Runs.{entries_of};

use crs_base::Entry;
use std::rc::Rc;

/// The least date of an entry at or after this one.
pub fn to_date(t: i64) -> u64
    ensures { result ≡ nat_of t }
{
    if t < 0 { 0 } else { t as u64 }
}

/// The entries dated before the date, and the others.
fn split_by_date(items: &[Rc<Entry>], date: u64) -> (&[Rc<Entry>], &[Rc<Entry>])
    requires { IsByDate (entries_of items.now) }
    ensures before { entries_of result.0.now ≡ filter (is_before date) (entries_of items.now) }
    ensures since { entries_of result.1.now ≡ filter (is_since date) (entries_of items.now) }
{
    let place = items.partition_point(
        |e: &Rc<Entry>| -> bool
            ensures { result ≡ nat_lt e.now.value.date date }
        { e.date < date },
    );
    items.split_at(place)
}

/// The entries dated from one date on and before another.
pub fn dated_in(items: &[Rc<Entry>], from: i64, to: i64) -> &[Rc<Entry>]
    requires { IsByDate (entries_of items.now) }
    ensures { entries_of result.now ≡ dated_in from to (entries_of items.now) }
{
    let (early, _) = split_by_date(items, to_date(to));
    let (_, dated) = split_by_date(early, to_date(from));
    dated
}
