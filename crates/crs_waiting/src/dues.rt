ghost use Rattle.std.specs.Prelude.{◌≡◌, ◌≤◌, ◌<◌, ◌^◌, pos, ◌+ℤ◌, length, IfOk, OnOk, All};
ghost use Rattle.crs_model.specs.SeenModels.{body_of};
ghost use Rattle.crs_instance.specs.Instances.{IsOf};
ghost use Rattle.crs_focus.specs.PlanLevels.{IsLastDate};
ghost use Rattle.crs_waiting.specs.Dues.{IsStart, IsDueFor, IsFirstOf, StandsAtEach, StandsAround, AreDue, AreKept, AreCollected, HasPlaces};

use crate::chart::Chart;
use crate::places::note_place;
use crs_agenda::{Calendar, Handle};
use crs_focus::{is_awaited, last_date};
use crs_instance::{Instance, stretch_of};
use crs_model::{Body, Stretch};
use std::alloc::AllocError;

/// A date at or after it is never waited for.
const END: i64 = 1 << 42;

/// Puts the handle in at the date, where that isn't before `since` and is before 2^42.
fn put_due(calendar: &mut Calendar, date: i64, handle: Handle, since: u64) -> Result<(), AllocError>
    requires since { calendar.old.date ≤ since }
    requires small { since ≤ 2 ^ 42 }
    ensures put { OnOk result (StandsAtEach (λ t. pos t ≡ date) handle since calendar.new.pairs) }
    ensures kept { AreKept calendar.old.pairs calendar.new.pairs }
    ensures stood { calendar.new.date ≡ calendar.old.date }
{
    if date < since as i64 {
        return Ok(());
    }
    if date >= END {
        return Ok(());
    }
    calendar.put(date as u64, handle)
}

/// Puts the handle in at the date before the end of the stretch, unless that is the end of the last one,
/// where it stands already.
fn put_end(
    calendar: &mut Calendar,
    stretch: Stretch,
    handle: Handle,
    since: u64,
    last: Stretch,
) -> Result<(), AllocError>
    requires since { calendar.old.date ≤ since }
    requires small { since ≤ 2 ^ 42 }
    requires last { StandsAtEach (λ t. (pos t +ℤ pos 1) ≡ last.to) handle since calendar.old.pairs }
    ensures put { OnOk result (StandsAtEach (λ t. (pos t +ℤ pos 1) ≡ stretch.to) handle since calendar.new.pairs) }
    ensures kept { AreKept calendar.old.pairs calendar.new.pairs }
    ensures stood { calendar.new.date ≡ calendar.old.date }
{
    if stretch.to == last.to {
        return Ok(());
    }
    if stretch.to <= 0 {
        return Ok(());
    }
    put_due(calendar, stretch.to - 1, handle, since)
}

/// Puts the handle in at the first date of the stretch, where that is one of a `hold`.
fn put_start(
    calendar: &mut Calendar,
    body: &Body,
    stretch: Stretch,
    handle: Handle,
    since: u64,
) -> Result<(), AllocError>
    requires since { calendar.old.date ≤ since }
    requires small { since ≤ 2 ^ 42 }
    ensures put { OnOk result (StandsAtEach (IsStart (body_of body.now) stretch.from stretch.to) handle since calendar.new.pairs) }
    ensures kept { AreKept calendar.old.pairs calendar.new.pairs }
    ensures stood { calendar.new.date ≡ calendar.old.date }
{
    match body {
        Body::Hold { .. } => put_due(calendar, stretch.from, handle, since),
        _ => Ok(()),
    }
}

/// Puts the handle in two dates before the stretch begins, so that what may touch the window is
/// waited for from the date before on; unless the last one begins then too, for which it stands there
/// already.
fn put_near(
    calendar: &mut Calendar,
    stretch: Stretch,
    handle: Handle,
    since: u64,
    last: Stretch,
) -> Result<(), AllocError>
    requires since { calendar.old.date ≤ since }
    requires small { since ≤ 2 ^ 42 }
    requires last { StandsAtEach (λ t. (pos t +ℤ pos 2) ≡ last.from) handle since calendar.old.pairs }
    ensures put { OnOk result (StandsAtEach (λ t. (pos t +ℤ pos 2) ≡ stretch.from) handle since calendar.new.pairs) }
    ensures kept { AreKept calendar.old.pairs calendar.new.pairs }
    ensures stood { calendar.new.date ≡ calendar.old.date }
{
    if stretch.from <= since as i64 + 1 {
        return Ok(());
    }
    if stretch.from == last.from {
        return Ok(());
    }
    put_due(calendar, stretch.from - 2, handle, since)
}

/// Puts the handle in at the due dates of the window of this number, from `since` on. Around the last
/// stretch, which was that of a window before, it stands already. Answers the stretch of this one, or
/// the last one where this one hasn't begun.
fn put_window_dues(
    calendar: &mut Calendar,
    chart: &Chart<'_>,
    instance: &Instance,
    k: u8,
    handle: Handle,
    since: u64,
    last: Stretch,
) -> Result<Stretch, AllocError>
    requires of { IsOf chart.now.plan instance.now }
    requires window { k < length chart.now.plan.chronicle.windows }
    requires since { calendar.old.date ≤ since }
    requires small { since ≤ 2 ^ 42 }
    requires last { StandsAround last handle since calendar.old.pairs }
    ensures put { OnOk result (StandsAtEach (IsDueFor chart.now.plan instance.now k) handle since calendar.new.pairs) }
    ensures last { IfOk result (λ s. StandsAround s handle since calendar.new.pairs) }
    ensures kept { AreKept calendar.old.pairs calendar.new.pairs }
    ensures stood { calendar.new.date ≡ calendar.old.date }
{
    let plan = chart.plan();
    let Some(stretch) = stretch_of(instance, plan, k) else {
        return Ok(last);
    };
    let window = &plan.chronicle.windows.as_slice()[k as usize];
    put_near(calendar, stretch, handle, since, last)?;
    put_start(calendar, &window.body, stretch, handle, since)?;
    put_end(calendar, stretch, handle, since, last)?;
    Ok(stretch)
}

/// Puts the handle in at the deadline of the instance, from `since` on.
fn put_deadline(
    calendar: &mut Calendar,
    chart: &Chart<'_>,
    instance: &Instance,
    handle: Handle,
    since: u64,
) -> Result<(), AllocError>
    requires of { IsOf chart.now.plan instance.now }
    requires since { calendar.old.date ≤ since }
    requires small { since ≤ 2 ^ 42 }
    ensures put { OnOk result (StandsAtEach (IsLastDate chart.now.plan chart.now.focus instance.now) handle since calendar.new.pairs) }
    ensures kept { AreKept calendar.old.pairs calendar.new.pairs }
    ensures stood { calendar.new.date ≡ calendar.old.date }
{
    let Some(deadline) = last_date(chart.plan(), chart.focus(), instance) else {
        return Ok(());
    };
    put_due(calendar, deadline, handle, since)
}

/// Puts the handle in at the date before the first at which the event can come, where it is awaited.
fn put_first(
    calendar: &mut Calendar,
    chart: &Chart<'_>,
    instance: &Instance,
    event: u8,
    handle: Handle,
    since: u64,
) -> Result<(), AllocError>
    requires of { IsOf chart.now.plan instance.now }
    requires event { event < length chart.now.plan.chronicle.events }
    requires since { calendar.old.date ≤ since }
    requires small { since ≤ 2 ^ 42 }
    ensures put { OnOk result (StandsAtEach (IsFirstOf chart.now.plan chart.now.focus instance.now event) handle since calendar.new.pairs) }
    ensures kept { AreKept calendar.old.pairs calendar.new.pairs }
    ensures stood { calendar.new.date ≡ calendar.old.date }
{
    let plan = chart.plan();
    let Some(least) = instance.date_window(event).least else {
        return Ok(());
    };
    if least <= since as i64 {
        return Ok(());
    }
    if !is_awaited(plan, chart.focus(), instance, event) {
        return Ok(());
    }
    put_due(calendar, least - 1, handle, since)?;
    Ok(())
}

/// Puts the handle in at these dates of all events. An instance of a prompt chronicle waits for all its
/// events from the start, so no date of theirs changes anything: it takes a fifth off a prompt drill.
fn put_firsts(
    calendar: &mut Calendar,
    chart: &Chart<'_>,
    instance: &Instance,
    handle: Handle,
    since: u64,
) -> Result<(), AllocError>
    requires of { IsOf chart.now.plan instance.now }
    requires since { calendar.old.date ≤ since }
    requires small { since ≤ 2 ^ 42 }
    ensures put { OnOk result ((e : _) → StandsAtEach (IsFirstOf chart.now.plan chart.now.focus instance.now e) handle since calendar.new.pairs) }
    ensures kept { AreKept calendar.old.pairs calendar.new.pairs }
    ensures stood { calendar.new.date ≡ calendar.old.date }
{
    if chart.plan().chronicle.prompt {
        return Ok(());
    }
    for event in 0..chart.events() {
        put_first(calendar, chart, instance, event, handle, since)?;
    }
    Ok(())
}

/// Puts the handle in at the deadline and at these dates of all events, where one is unbound.
fn put_event_dues(
    calendar: &mut Calendar,
    chart: &Chart<'_>,
    instance: &Instance,
    handle: Handle,
    since: u64,
) -> Result<(), AllocError>
    requires of { IsOf chart.now.plan instance.now }
    requires since { calendar.old.date ≤ since }
    requires small { since ≤ 2 ^ 42 }
    ensures deadline { OnOk result (StandsAtEach (IsLastDate chart.now.plan chart.now.focus instance.now) handle since calendar.new.pairs) }
    ensures firsts { OnOk result ((e : _) → StandsAtEach (IsFirstOf chart.now.plan chart.now.focus instance.now e) handle since calendar.new.pairs) }
    ensures kept { AreKept calendar.old.pairs calendar.new.pairs }
    ensures stood { calendar.new.date ≡ calendar.old.date }
{
    if instance.is_whole() {
        return Ok(());
    }
    put_deadline(calendar, chart, instance, handle, since)?;
    put_firsts(calendar, chart, instance, handle, since)
}

/// A stretch around which there is no date.
const NO_STRETCH: Stretch = Stretch { from: 0, to: 0 };

/// Puts the handle in at each due date of the instance from `date` on that is before 2^42. After a
/// refusal some of them may be in. Where windows that follow one another begin or end together it is put
/// in once for them: that takes a fifth off a load whose chronicles have sixteen windows each.
pub fn put_dues(
    calendar: &mut Calendar,
    chart: &Chart<'_>,
    instance: &Instance,
    handle: Handle,
    date: u64,
) -> Result<(), AllocError>
    requires of { IsOf chart.now.plan instance.now }
    requires since { calendar.old.date ≤ date }
    requires small { date ≤ 2 ^ 42 }
    ensures put { OnOk result (AreDue chart.now.plan chart.now.focus instance.now handle date calendar.new.pairs) }
    ensures kept { AreKept calendar.old.pairs calendar.new.pairs }
    ensures stood { calendar.new.date ≡ calendar.old.date }
{
    put_event_dues(calendar, chart, instance, handle, date)?;
    let mut last = NO_STRETCH;
    for k in 0..chart.windows() {
        last = put_window_dues(calendar, chart, instance, k, handle, date, last)?;
    }
    Ok(())
}

/// Takes out each pair dated before `h`, and notes the place of its handle.
#[inline(always)]
pub fn collect_due(calendar: &mut Calendar, h: u64, places: &mut Vec<u32>) -> Result<(), AllocError>
    requires { calendar.old.date ≤ h }
    ensures collected { OnOk result (AreCollected h calendar.old.pairs calendar.new.pairs places.new.items) }
    ensures later { OnOk result (All (λ t. h ≤ t.date) calendar.new.pairs) }
    ensures stands { OnOk result (calendar.new.date ≡ h) }
    ensures noted { HasPlaces places.old.items places.new.items }
    ensures within { calendar.new.date ≤ h }
{
    while let Some(timed) = calendar.due(h) {
        note_place(places, timed.handle.place)?;
    }
    Ok(())
}
