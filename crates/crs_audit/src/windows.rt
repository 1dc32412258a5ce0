// Whether windows are met.
ghost use Rattle.std.specs.Prelude.{◌≡◌, ◌<◌, ◌≤◌, ◌+◌, ◌-◌, ◌^◌, ◌↔◌, pos, ◌+ℤ◌, ◌≤ℤ◌, Some, IfSome, IsSomeAnd, IsTrue, if◌then◌else◌, length, map};
ghost use Rattle.std.specs.List.{AllByRecursion};
ghost use Rattle.crs_model.specs.Partial.{at};
ghost use Rattle.crs_base.specs.Seen.{entry_of};
ghost use Rattle.crs_model.specs.SeenModels.{pattern_of, body_of, window_of};
ghost use Rattle.crs_model.specs.Bindings.{look_of};
ghost use Rattle.crs_model.specs.Verdicts.{PatternIsBound, BodyIsBound, IsSo, IsMet};
ghost use Rattle.crs_model.specs.Ready.{HoldsOne};
ghost use Rattle.crs_audit.specs.CitedDates.{IsByDate, dated_in};
ghost use Rattle.crs_audit.specs.Runs.{entries_of};
ghost use Rattle.crs_audit.specs.ClaimWindows.{settled_in, CanBeMet};
ghost use Rattle.crs_audit.specs.Counted.{IsCounted, AreCounted};

use crate::dates::{dated_in, to_date};
use crate::run::Stand;
use crate::values::{Wanted, holds};
use crs_base::Entry;
use crs_model::{Anchor, Binding, Body, Pattern, Window, accepts};
use std::rc::Rc;

/// Whether the entry is one of the first `accepted` of the log and equals the pattern, whose variables
/// are bound.
fn is_counted(pattern: &Pattern, binding: &Binding, entry: &Rc<Entry>, accepted: u32) -> bool
    requires { PatternIsBound (look_of binding.now) (pattern_of pattern.now) }
    ensures { IsTrue result ↔ IsCounted (look_of binding.now) (pattern_of pattern.now) accepted (entry_of entry.now.value) }
{
    entry.arrival < accepted && entry.name == pattern.name && accepts(pattern, binding, entry)
}

/// One more, where it is counted.
fn count_on(n: u32, is_counted: bool) -> u32
    requires { n < 2 ^ 32 - 1 }
    ensures { result ≡ (if is_counted then n + 1 else n) }
{
    if is_counted { n + 1 } else { n }
}

/// How many of the entries, of which the first `accepted` of the log are settled, equal the pattern.
fn count(pattern: &Pattern, binding: &Binding, entries: &[Rc<Entry>], accepted: u32) -> u32
    requires bound { PatternIsBound (look_of binding.now) (pattern_of pattern.now) }
    requires few { length entries.now < 2 ^ 32 }
    ensures { AreCounted (look_of binding.now) (pattern_of pattern.now) accepted (map (λ e. entry_of e.value) entries.now) result }
{
    let mut n: u32 = 0;
    for entry in entries {
        n = count_on(n, is_counted(pattern, binding, entry, accepted));
    }
    n
}

/// The date of an event's entry.
fn date_at(entries: &[Rc<Entry>], event: u8) -> u64
    requires event { event < length entries.now }
    requires dated { AllByRecursion (λ e. e.date < 2 ^ 40) (map (λ e. entry_of e.value) entries.now) }
    ensures at { IsSomeAnd (at (map Some (map (λ e. entry_of e.value) entries.now)) event) (λ e. result ≡ e.date) }
    ensures small { result < 2 ^ 40 }
{
    entries[event as usize].date
}

/// The date of an anchor.
fn date_of(anchor: Anchor, entries: &[Rc<Entry>]) -> i64
    requires event { anchor.event < length entries.now }
    requires dated { AllByRecursion (λ e. e.date < 2 ^ 40) (map (λ e. entry_of e.value) entries.now) }
    requires not_large { anchor.offset ≤ℤ pos (2 ^ 40) }
    requires not_small { pos 0 ≤ℤ (anchor.offset +ℤ pos (2 ^ 40)) }
    ensures at { IsSomeAnd (at (map Some (map (λ e. entry_of e.value) entries.now)) anchor.event) (λ e. result ≡ pos e.date +ℤ anchor.offset) }
    ensures far { result ≤ℤ pos (2 ^ 42) }
{
    let date = date_at(entries, anchor.event);
    date as i64 + anchor.offset
}

/// Whether so many are as many as are wanted.
fn is_enough(n: u32, least: u32, most: Option<u32>) -> bool
    ensures { IsTrue result ↔ ((least ≤ n) × IfSome most (λ m. n ≤ m)) }
{
    match most {
        None => least <= n,
        Some(most) => least <= n && n <= most,
    }
}

/// The count of a pattern's entries that are dated from one date on and before another.
fn count_in(
    pattern: &Pattern,
    binding: &Binding,
    by_key: &[Rc<Entry>],
    accepted: u32,
    from: i64,
    to: i64,
) -> u32
    requires bound { PatternIsBound (look_of binding.now) (pattern_of pattern.now) }
    requires few { length by_key.now < 2 ^ 32 }
    requires by_date { IsByDate (entries_of by_key.now) }
    ensures { AreCounted (look_of binding.now) (pattern_of pattern.now) accepted (dated_in from to (entries_of by_key.now)) result }
{
    count(pattern, binding, dated_in(by_key, from, to), accepted)
}

/// Whether what a body wants is so over the dates from one on and before another, which are settled at
/// the mark.
fn is_so(
    body: &Body,
    binding: &Binding,
    by_key: &[Rc<Entry>],
    at: Stand,
    from: i64,
    to: i64,
) -> bool
    requires bound { BodyIsBound (look_of binding.now) (body_of body.now) }
    requires plain { HoldsOne (body_of body.now) }
    requires few { length by_key.now < 2 ^ 32 }
    requires by_date { IsByDate (entries_of by_key.now) }
    requires dated { AllByRecursion (λ e. e.date < 2 ^ 40) (entries_of by_key.now) }
    requires far { from ≤ℤ pos (2 ^ 42) }
    requires settled { to ≤ℤ pos at.horizon }
    ensures { IsTrue result ↔ IsSo (settled_in at (entries_of by_key.now)) (look_of binding.now) (body_of body.now) from to }
{
    match body {
        Body::NoEvent(pattern) => count_in(pattern, binding, by_key, at.accepted, from, to) == 0,
        Body::Occurs {
            least,
            most,
            pattern,
        } => {
            let n = count_in(pattern, binding, by_key, at.accepted, from, to);
            is_enough(n, *least, *most)
        }
        Body::Hold { name, terms, value } => {
            let wanted = Wanted {
                name: *name,
                terms: terms.as_slice(),
                value: *value,
                binding,
            };
            to <= from || holds(&wanted, by_key, at.accepted, from, to)
        }
    }
}

/// Whether the window is met at the mark.
fn is_met(
    by_key: &[Rc<Entry>],
    at: Stand,
    window: &Window,
    entries: &[Rc<Entry>],
    binding: &Binding,
) -> bool
    requires able { CanBeMet (look_of binding.now) (length entries.now) (window_of window.now) }
    requires few { length by_key.now < 2 ^ 32 }
    requires by_date { IsByDate (entries_of by_key.now) }
    requires dated { AllByRecursion (λ e. e.date < 2 ^ 40) (entries_of by_key.now) }
    requires dated_too { AllByRecursion (λ e. e.date < 2 ^ 40) (map (λ e. entry_of e.value) entries.now) }
    ensures { IsTrue result ↔ IsMet (look_of binding.now) (map Some (map (λ e. entry_of e.value) entries.now)) (settled_in at (entries_of by_key.now)) at.horizon (window_of window.now) }
{
    let from = date_of(window.from, entries);
    let to = date_of(window.to, entries);
    if at.horizon < to_date(to) {
        return false;
    }
    is_so(&window.body, binding, by_key, at, from, to)
}

/// Whether each window is met at the mark.
pub fn are_met(
    by_key: &[Rc<Entry>],
    at: Stand,
    windows: &[Window],
    entries: &[Rc<Entry>],
    binding: &Binding,
) -> bool
    requires able { AllByRecursion (CanBeMet (look_of binding.now) (length entries.now)) (map window_of windows.now) }
    requires few { length by_key.now < 2 ^ 32 }
    requires by_date { IsByDate (entries_of by_key.now) }
    requires dated { AllByRecursion (λ e. e.date < 2 ^ 40) (entries_of by_key.now) }
    requires dated_too { AllByRecursion (λ e. e.date < 2 ^ 40) (map (λ e. entry_of e.value) entries.now) }
    ensures { IsTrue result ↔ AllByRecursion (IsMet (look_of binding.now) (map Some (map (λ e. entry_of e.value) entries.now)) (settled_in at (entries_of by_key.now)) at.horizon) (map window_of windows.now) }
{
    for window in windows {
        if !is_met(by_key, at, window, entries, binding) {
            return false;
        }
    }
    true
}
