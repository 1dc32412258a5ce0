ghost use Rattle.std.specs.Prelude.{◌≡◌, ◌≢◌, ◌<◌, ◌≤◌, ◌^◌, ◌==◌, ℕ, length, map, IsTrue, ◌↔◌, true, false};
ghost use Rattle.crs_stn.specs.DateWindow.{least_of};
ghost use Rattle.crs_stn.specs.Table.{most_of};
ghost use Rattle.crs_model.specs.Levels.{level_in};
ghost use Rattle.crs_model.specs.Plans.{chronicle};
ghost use Rattle.crs_model.specs.SeenModels.{event_of};
ghost use Rattle.crs_model.specs.Bits.{is_set};
ghost use Rattle.crs_instance.specs.Deadlines.{end_if};
ghost use Rattle.crs_instance.specs.Instances.{window_at};
ghost use Rattle.crs_instance.specs.Spans.{end_of, window_of, windows_of};
ghost use Rattle.crs_instance.specs.Narrowed.{most_with, IsFrom};
ghost use Rattle.crs_instance.specs.Waits.{IsOtherUnset};

use crate::narrowing::{can_be_from, earlier};
use crate::span::{NO_MOST, Span};
use crs_model::{EventDef, Plan, is_set_at};

/// The level of the event at a place, which is 0 where levels aren't read.
fn level_at(events: &[EventDef], place: u8, focus: bool) -> u8
    requires { place < length events.now }
    ensures { result ≡ level_in (map event_of events.now) focus place }
{
    if focus {
        events[place as usize].level
    } else {
        0
    }
}

/// The greatest date of an event, where it is unbound and it counts.
fn latest_date(counts: bool, is_bound: bool, span: Span) -> i64
    ensures { end_of result ≡ end_if counts is_bound (window_of span) }
{
    if is_bound {
        return NO_MOST;
    }
    if counts { span.most } else { NO_MOST }
}

/// Whether the event at a place is another one of the event's level, and unbound.
fn is_other(bound: u16, events: &[EventDef], place: u8, event: u8, focus: bool) -> bool
    requires few { place < 16 }
    requires place { place < length events.now }
    requires event { event < length events.now }
    ensures { IsTrue result ↔ ((place ≢ event) × (is_set bound place ≡ false) × (level_in (map event_of events.now) focus place ≡ level_in (map event_of events.now) focus event)) }
{
    if is_set_at(bound, place) {
        return false;
    }
    if place == event {
        return false;
    }
    level_at(events, place, focus) == level_at(events, event, focus)
}

/// Whether each other unbound event of the event's level can be at `h` or after, where the event has
/// this date.
pub(crate) fn others_can_be_from(
    bound: u16,
    spans: &[Span],
    plan: &Plan,
    event: u8,
    date: u64,
    focus: bool,
    h: u64,
) -> bool
    requires few { length plan.now.chronicle.events ≤ 16 }
    requires spans { length spans.now ≡ plan.now.network.points }
    requires points { length plan.now.chronicle.events ≤ plan.now.network.points }
    requires event { event < length plan.now.chronicle.events }
    requires date { date < 2 ^ 40 }
    requires horizon { h ≤ 2 ^ 42 }
    ensures yes { result ≡ true → (g : ℕ) → IsOtherUnset (level_in (chronicle plan.now).events focus) (length plan.now.chronicle.events) bound event g → IsFrom (most_with (window_at (windows_of spans.now) g) (most_of plan.now.network event g) date) h }
    ensures no { result ≡ false → (g : ℕ) × IsOtherUnset (level_in (chronicle plan.now).events focus) (length plan.now.chronicle.events) bound event g × (IsFrom (most_with (window_at (windows_of spans.now) g) (most_of plan.now.network event g) date) h → ⊥) }
{
    let events = plan.chronicle.events.as_slice();
    for g in 0..events.len() as u8 {
        if !is_other(bound, events, g, event, focus) {
            continue;
        }
        if !can_be_from(spans[g as usize], &plan.network, event, g, date, h) {
            return false;
        }
    }
    true
}

/// The least of the greatest dates of the unbound events of the level, by the events' own levels.
pub(crate) fn deadline_of_level(
    bound: u16,
    count: u8,
    spans: &[Span],
    events: &[EventDef],
    level: u8,
) -> i64
    requires few { count ≤ 16 }
    requires spans { count ≤ length spans.now }
    requires events { count ≤ length events.now }
    ensures { end_of result ≡ least_of (λ e. end_if (level_in (map event_of events.now) true e == level) (is_set bound e) (window_at (windows_of spans.now) e)) count }
{
    let mut earliest = NO_MOST;
    for e in 0..count {
        let counts = level_at(events, e, true) == level;
        let latest = latest_date(counts, is_set_at(bound, e), spans[e as usize]);
        earliest = earlier(latest, earliest);
    }
    earliest
}

/// The least of the greatest dates of the unbound events.
pub(crate) fn earliest_deadline(bound: u16, count: u8, spans: &[Span]) -> i64
    requires few { count ≤ 16 }
    requires spans { count ≤ length spans.now }
    ensures { end_of result ≡ least_of (λ e. end_if true (is_set bound e) (window_at (windows_of spans.now) e)) count }
{
    let mut earliest = NO_MOST;
    for e in 0..count {
        let latest = latest_date(true, is_set_at(bound, e), spans[e as usize]);
        earliest = earlier(latest, earliest);
    }
    earliest
}
