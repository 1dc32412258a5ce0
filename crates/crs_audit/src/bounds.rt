// Whether dates of the free points exist, with which entries' dates meet the bounds.
//
// The dates are raised along the bounds until none rises (R. Bellman, On a routing problem, 1958), and
// the bounds can't be met exactly where an event's date would rise. A free point has no date until a
// bound asks for one.
ghost use Rattle.std.specs.Prelude.{◌≡◌, ◌<◌, ◌≤◌, ◌+◌, ◌*◌, ◌^◌, ◌↔◌, ℕ, pos, Some, None, IsTrue, IsSomeAnd, ◌≤ℤ◌, length, map};
ghost use Rattle.std.specs.List.{AllByRecursion};
ghost use Rattle.crs_base.specs.Seen.{entry_of};
ghost use Rattle.crs_stn.specs.Bound.{IsBoundBelow, IsWithin, IsConsistent, MeetsInPart};
ghost use Rattle.crs_model.specs.Partial.{dates_of};
ghost use Rattle.crs_audit.specs.declared.bounds.Raising.TheVariants.{Failed};
ghost use Rattle.crs_audit.specs.Rounds.{date_in, AreNear, IsRaising, IsRaisingAll, both};

use crs_base::Entry;
use crs_stn::Bound;
use std::rc::Rc;

/// Dates of points, of which some are known.
#[derive(Clone, Copy)]
struct Dates {
    of: [Option<i64>; 24],
}

/// What a bound does to dates.
#[derive(Clone, Copy)]
enum Raising {
    /// They keep it.
    Kept,
    /// A free point's date rises.
    Raised,
    /// An event's date would rise.
    Failed,
}

/// Whether there is a date, at or after this one.
fn is_since(date: Option<i64>, least: i64) -> bool
    ensures { IsTrue result ↔ IsSomeAnd date (λ d. least ≤ℤ d) }
{
    match date {
        Some(date) => least <= date,
        None => false,
    }
}

/// Raises a date so that the bound is kept, by the dates before the round. The first `events` points
/// are those of events.
fn raise(before: &Dates, dates: &mut Dates, events: u8, round: u8, bound: &Bound) -> Raising
    requires within { IsBoundBelow 24 bound.now }
    requires few { round < 25 }
    requires near { AreNear (round + 1) before.now.of }
    requires near_now { AreNear (round + 2) dates.old.of }
    ensures raising { IsRaising bound.now events (date_in before.now.of) (date_in dates.old.of) (date_in dates.new.of) result }
    ensures near { AreNear (round + 2) dates.new.of }
{
    let Some(most) = bound.most else {
        return Raising::Kept;
    };
    let Some(date) = before.of[bound.to as usize] else {
        return Raising::Kept;
    };
    let least = date - most;
    if is_since(dates.of[bound.from as usize], least) {
        return Raising::Kept;
    }
    if bound.from < events {
        return Raising::Failed;
    }
    dates.of[bound.from as usize] = Some(least);
    Raising::Raised
}

/// What two steps do, one after the other.
fn both(first: Raising, second: Raising) -> Raising
    ensures { result ≡ both first second }
{
    match second {
        Raising::Kept => first,
        other => other,
    }
}

/// Whether an event's date would rise.
fn has_failed(raising: Raising) -> bool
    ensures { IsTrue result ↔ (raising ≡ Failed) }
{
    matches!(raising, Raising::Failed)
}

/// Raises dates along each bound once, by the dates before.
fn raise_all(before: &Dates, dates: &mut Dates, events: u8, round: u8, bounds: &[Bound]) -> Raising
    requires within { IsWithin 24 bounds.now }
    requires few { round < 25 }
    requires near { AreNear (round + 1) before.now.of }
    requires same { dates.old ≡ before.now }
    ensures raising { IsRaisingAll bounds.now events (date_in before.now.of) (date_in dates.new.of) result }
    ensures near { AreNear (round + 2) dates.new.of }
{
    let mut all = Raising::Kept;
    for bound in bounds {
        all = both(all, raise(before, dates, events, round, bound));
        if has_failed(all) {
            return all;
        }
    }
    all
}

/// The dates of the entries.
fn dates_at(entries: &[Rc<Entry>]) -> Dates
    requires few { length entries.now ≤ 16 }
    requires dated { AllByRecursion (λ e. e.date < 2 ^ 40) (map (λ e. entry_of e.value) entries.now) }
    ensures same { (p : ℕ) → date_in result.of p ≡ dates_of (map Some (map (λ e. entry_of e.value) entries.now)) p }
    ensures near { AreNear 1 result.of }
{
    let mut dates = Dates { of: [None; 24] };
    for (i, entry) in entries.iter().enumerate() {
        dates.of[i] = Some(entry.date as i64);
    }
    dates
}

/// Whether the dates of the entries, one for each event, meet the bounds. Each round in which a date
/// rises finds the last date of a point, so there are at most 24 such rounds.
pub fn meet_bounds(bounds: &[Bound], entries: &[Rc<Entry>]) -> bool
    requires within { IsWithin 24 bounds.now }
    requires consistent { IsConsistent bounds.now }
    requires few { length entries.now ≤ 16 }
    requires dated { AllByRecursion (λ e. e.date < 2 ^ 40) (map (λ e. entry_of e.value) entries.now) }
    ensures { IsTrue result ↔ MeetsInPart bounds.now (dates_of (map Some (map (λ e. entry_of e.value) entries.now))) }
{
    let mut dates = dates_at(entries);
    for round in 0..25u8 {
        let before = dates;
        match raise_all(&before, &mut dates, entries.len() as u8, round, bounds) {
            Raising::Kept => return true,
            Raising::Failed => return false,
            Raising::Raised => {}
        }
    }
    false
}
