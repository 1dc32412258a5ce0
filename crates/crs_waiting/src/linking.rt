//! Instances wait for what may come to them.
ghost use Rattle.std.specs.Prelude.{◌≡◌, ◌<◌, ◌≤◌, ◌↔◌, ◌≤ℤ◌, IsTrue, Some, length, OnOk, pos};
ghost use Rattle.crs_instance.specs.Instances.{IsOf};
ghost use Rattle.crs_model.specs.HasProgress.{IsEnough};
ghost use Rattle.crs_model.specs.SeenModels.{body_of};
ghost use Rattle.crs_waiting.specs.Hooks.{Waits};
ghost use Rattle.crs_waiting.specs.Links.{hook_at, linked_by, Grows, IsLinkedAnew, IsNear, IsArmedAnew};
ghost use Rattle.crs_waiting.specs.Linkings.{StartsBetween, NearsBetween, IsLinkedAt, IsArmedAt};

use crate::befores::is_held_back;
use crate::chart::Chart;
use crate::hooks::key_of_binding;
use crs_agenda::Handle;
use crs_focus::is_awaited;
use crs_index::{Index, Key};
use crs_instance::{Dated, Instance, stretch_of};
use crs_model::{Body, DateWindow};
use std::alloc::AllocError;

/// Has the handle wait under the key.
fn wait(waiting: &mut Index, key: Key, handle: Handle) -> Result<(), AllocError>
    ensures grown { Grows waiting.old waiting.new }
    ensures waits { OnOk result (Waits waiting.new key handle) }
{
    waiting.put(key, handle)
}

/// Whether the date isn't after h.
fn is_by(date: i64, h: u64) -> bool
    ensures { IsTrue result ↔ (date ≤ℤ pos h) }
{
    date < 0 || date as u64 <= h
}

/// Whether the dates begin by h and, where there is an earlier date, not by that.
fn starts_between(window: DateWindow, since: Option<u64>, h: u64) -> bool
    ensures { IsTrue result ↔ StartsBetween window since h }
{
    let Some(least) = window.least else {
        return since.is_none();
    };
    if !is_by(least, h) {
        return false;
    }
    match since {
        None => true,
        Some(earlier) => !is_by(least, earlier),
    }
}

/// Has the handle wait for the event, where it is next and can come by `h`, and couldn't by `since`.
fn link_event(
    waiting: &mut Index,
    chart: &Chart<'_>,
    instance: &Instance,
    event: u8,
    handle: Handle,
    since: Option<u64>,
    h: u64,
) -> Result<(), AllocError>
    requires of { IsOf chart.now.plan instance.now }
    requires event { event < length chart.now.plan.chronicle.events }
    ensures grown { Grows waiting.old waiting.new }
    ensures linked { OnOk result (IsLinkedAt chart.now.plan chart.now.focus (hook_at chart.now.hooks.events.items event) waiting.new handle since h instance.now event) }
{
    let plan = chart.plan();
    let hook = chart.event_hook(event);
    if is_held_back(hook, instance) {
        return Ok(());
    }
    if !is_awaited(plan, chart.focus(), instance, event) {
        return Ok(());
    }
    if !starts_between(instance.date_window(event), since, h) {
        return Ok(());
    }
    let key = key_of_binding(event as u32, hook, instance.binding());
    wait(waiting, key, handle)
}

/// Has the handle wait for each next event that can come by `h` and, where there is a date
/// `since`, couldn't by that. After a refusal it may wait for some of them.
pub fn link_events(
    waiting: &mut Index,
    chart: &Chart<'_>,
    instance: &Instance,
    handle: Handle,
    since: Option<u64>,
    h: u64,
) -> Result<(), AllocError>
    requires of { IsOf chart.now.plan instance.now }
    ensures grown { Grows waiting.old waiting.new }
    ensures linked { OnOk result (IsLinkedAnew chart.now.plan chart.now.focus chart.now.hooks.events.items waiting.new handle since h instance.now) }
{
    if instance.is_whole() {
        return Ok(());
    }
    for event in 0..chart.events() {
        link_event(waiting, chart, instance, event, handle, since, h)?;
    }
    Ok(())
}

/// Whether the date is at most one after h.
fn is_near(date: i64, h: u64) -> bool
    ensures { IsTrue result ↔ IsNear date h }
{
    date <= 0 || (date - 1) as u64 <= h
}

/// Whether the date is at most one after `h` and, where there is an earlier date, more than one
/// after that.
fn nears_between(date: i64, since: Option<u64>, h: u64) -> bool
    ensures { IsTrue result ↔ NearsBetween date since h }
{
    if !is_near(date, h) {
        return false;
    }
    match since {
        None => true,
        Some(earlier) => !is_near(date, earlier),
    }
}

/// Whether the count is enough, whatever comes: no entry changes what it tells.
#[inline(always)]
fn is_enough(body: &Body, count: u32) -> bool
    ensures { IsTrue result ↔ IsEnough (body_of body.now) count }
{
    match body {
        Body::NoEvent(_) => false,
        Body::Occurs { least, most, .. } => most.is_none() && *least <= count,
        Body::Hold { .. } => false,
    }
}

/// Has the handle wait for what may touch the window, where its count isn't enough, it doesn't end by
/// `h` and begins by the date after that and, where there is a date `since`, didn't by the one after it. No entry touches
/// it before it begins. A date ahead, since many begin at the date after their anchor's: they are
/// armed at once, and not judged anew for it.
fn arm_window(
    waiting: &mut Index,
    chart: &Chart<'_>,
    instance: &Instance,
    k: u8,
    handle: Handle,
    since: Option<u64>,
    h: u64,
) -> Result<(), AllocError>
    requires window { k < length chart.now.plan.chronicle.windows }
    ensures grown { Grows waiting.old waiting.new }
    ensures armed { OnOk result (IsArmedAt chart.now.plan (hook_at chart.now.hooks.windows.items k) waiting.new handle since h instance.now k) }
{
    let plan = chart.plan();
    let Some(stretch) = stretch_of(instance, plan, k) else {
        return Ok(());
    };
    if is_by(stretch.to, h) {
        return Ok(());
    }
    if !nears_between(stretch.from, since, h) {
        return Ok(());
    }
    let window = &plan.chronicle.windows.as_slice()[k as usize];
    if is_enough(&window.body, instance.progress(k).count) {
        return Ok(());
    }
    let key = key_of_binding(16 + k as u32, chart.window_hook(k), instance.binding());
    wait(waiting, key, handle)
}

/// Has the handle wait for what may touch a window that doesn't end by `h` and begins by the date
/// after that and, where there is a date `since`, didn't by the one after it. After a refusal it may
/// wait for some of it.
pub fn arm_windows(
    waiting: &mut Index,
    chart: &Chart<'_>,
    instance: &Instance,
    handle: Handle,
    since: Option<u64>,
    h: u64,
) -> Result<(), AllocError>
    ensures grown { Grows waiting.old waiting.new }
    ensures armed { OnOk result (IsArmedAnew chart.now.plan chart.now.hooks.windows.items waiting.new handle since h instance.now) }
{
    for k in 0..chart.windows() {
        arm_window(waiting, chart, instance, k, handle, since, h)?;
    }
    Ok(())
}

/// Has the handle wait for each next event that can come by then and couldn't by `since`, and for
/// what may touch a window that begins by the date after `h` and didn't by the one after `since`.
/// After a refusal it may wait for some of it.
pub fn find_anew(
    waiting: &mut Index,
    chart: &Chart<'_>,
    instance: &Instance,
    handle: Handle,
    since: u64,
    h: u64,
) -> Result<(), AllocError>
    requires of { IsOf chart.now.plan instance.now }
    ensures grown { Grows waiting.old waiting.new }
    ensures linked { OnOk result (IsLinkedAnew chart.now.plan chart.now.focus chart.now.hooks.events.items waiting.new handle (Some (linked_by chart.now.plan since)) (linked_by chart.now.plan h) instance.now) }
    ensures armed { OnOk result (IsArmedAnew chart.now.plan chart.now.hooks.windows.items waiting.new handle (Some since) h instance.now) }
{
    // Nothing is new at the date itself: a third of what is touched in a log of 1.5 lines a date.
    if since == h {
        return Ok(());
    }
    let linked = chart.linked_by(since);
    link_events(
        waiting,
        chart,
        instance,
        handle,
        Some(linked),
        chart.linked_by(h),
    )?;
    arm_windows(waiting, chart, instance, handle, Some(since), h)?;
    Ok(())
}
