//! The instances that are held, and what finds them again.
ghost use Rattle.std.specs.Prelude.{◌≡◌, ◌≤◌, ◌<◌, ◌^◌, [], Some, length, map, false, OnOk};
ghost use Rattle.std.specs.List.{AllByRecursion};
ghost use Rattle.std.specs.List.Sorted.{IsStrictlySortedBy};
ghost use Rattle.std.specs.Ordering.{nat_cmp};
ghost use Rattle.crs_base.specs.Seen.{entry_of};
ghost use Rattle.crs_instance.specs.Instances.{IsOf};
ghost use Rattle.crs_living.specs.Ahead.{MayGo};
ghost use Rattle.crs_waiting.specs.Hooks.{KeepsFresh};
ghost use Rattle.crs_waiting.specs.Dues.{KeepsFreshPairs};
ghost use Rattle.crs_store.specs.Found.{founds, held_in};
ghost use Rattle.crs_store.specs.Joins.{ComesTo, ComesOrGoes, JoinsSome, Renews};
ghost use Rattle.crs_living.specs.Slots.{members, slot_at};
ghost use Rattle.crs_living.specs.Parts.{AllOf};
ghost use Rattle.crs_store.specs.Tidy.{IsTidyHolding, Registers, SettlesPlace, SettlesPlaces};
ghost use Rattle.crs_living.specs.Windows.{IsAble, IsFollowed, IsPassed};

use crate::found::{Born, find};
use crate::links::note_touched;
use crate::moment::Birth;
use crs_agenda::Calendar;
use crs_base::Entry;
use crs_history::History;
use crs_index::Index;
use crs_instance::Instance;
use crs_living::{Judging, Passing, Slots, follow_places, is_done, is_hopeful, pass_places};
use crs_model::{Body, Recognition};
use crs_waiting::{Chart, arm_windows, collect_due, find_anew, link_events, put_dues, sort_places};
use std::alloc::{AllocError, Global};
use std::rc::Rc;

/// Instances in places, and what finds them again: an index by what they wait for, a calendar by
/// the dates at which they have to be judged anew, and the places of those that are done.
#[derive(Drop)]
pub(crate) struct Holding {
    pub(crate) slots: Slots,
    pub(crate) waiting: Index,
    pub(crate) dues: Calendar,
    pub(crate) ripe: Vec<u32>,
    /// How many pairs the calendar has before the stale ones are dropped.
    room: usize,
}

/// The least such number.
const ROOM: usize = 1024;

/// Nothing is held.
pub(crate) fn no_holding(alloc: Global) -> Holding
    ensures none { members result.slots.slots ≡ [] }
    ensures tidy { (plan : _) (focus : _) (hooks : _) → IsTidyHolding plan focus hooks result 0 }
{
    Holding {
        slots: Slots::new(alloc),
        waiting: Index::new(alloc),
        dues: Calendar::new(alloc),
        ripe: Vec::new(alloc),
        room: ROOM,
    }
}

/// Drops the stale handles, where they may be most of what is there.
#[inline(always)]
fn sweep_waiting(waiting: &mut Index, serials: &[u32])
    ensures { KeepsFresh serials.now waiting.old waiting.new }
{
    if waiting.is_crowded() {
        waiting.sweep(serials);
    }
}

/// Drops the pairs with stale handles, where they may be most of what is there.
#[inline(always)]
fn sweep_dues(dues: &mut Calendar, room: &mut usize, serials: &[u32])
    ensures fresh { KeepsFreshPairs serials.now dues.old.pairs dues.new.pairs }
    ensures stood { dues.new.date ≡ dues.old.date }
{
    if dues.len() >= *room {
        dues.sweep(serials);
        *room = dues.len().saturating_mul(2).saturating_add(ROOM);
    }
}

/// Drops what is stale, where that may be most of what is there.
#[inline(always)]
fn sweep(holding: &mut Holding)
    ensures slots { holding.new.slots ≡ holding.old.slots }
    ensures len { length holding.new.slots.serials ≡ length holding.new.slots.slots }
    ensures tidy { (plan : _) (focus : _) (hooks : _) (d : _) → IsTidyHolding plan focus hooks holding.old d → IsTidyHolding plan focus hooks holding.new d }
{
    let serials = holding.slots.serials();
    sweep_waiting(&mut holding.waiting, serials);
    sweep_dues(&mut holding.dues, &mut holding.room, serials);
}

/// Has what stands in the place be found again, from the date `h` on.
#[inline(always)]
fn register(holding: &mut Holding, chart: &Chart<'_>, place: u32, h: u64) -> Result<(), AllocError>
    requires of { (i : _) → slot_at holding.old.slots place ≡ Some i → IsOf chart.now.plan i }
    requires stood { holding.old.dues.date ≤ h }
    requires small { h ≤ 2 ^ 42 }
    ensures { OnOk result (Registers chart.now.plan chart.now.focus chart.now.hooks h place holding.old holding.new) }
{
    let Some(instance) = holding.slots.get(place) else {
        return Ok(());
    };
    let handle = holding.slots.handle(place);
    link_events(
        &mut holding.waiting,
        chart,
        instance,
        handle,
        None,
        chart.linked_by(h),
    )?;
    arm_windows(&mut holding.waiting, chart, instance, handle, None, h)?;
    put_dues(&mut holding.dues, chart, instance, handle, h)?;
    Ok(())
}

/// Adds an instance, which was judged at `h`.
pub(crate) fn hold(
    holding: &mut Holding,
    chart: &Chart<'_>,
    instance: Instance,
    h: u64,
) -> Result<(), AllocError>
    requires of { IsOf chart.now.plan instance }
    requires able { IsAble chart.now.plan chart.now.focus h instance }
    requires tidy { IsTidyHolding chart.now.plan chart.now.focus chart.now.hooks holding.old h }
    requires small { h ≤ 2 ^ 42 }
    ensures tidy { OnOk result (IsTidyHolding chart.now.plan chart.now.focus chart.now.hooks holding.new h) }
    ensures comes { OnOk result (ComesTo instance (members holding.old.slots.slots) (members holding.new.slots.slots)) }
{
    let judging = Judging {
        plan: chart.plan(),
        focus: chart.focus(),
        h,
    };
    let done = is_done(&judging, &instance);
    let place = holding.slots.put(instance)?;
    if done {
        holding.ripe.push(place)?;
        return Ok(());
    }
    register(holding, chart, place, h)?;
    Ok(())
}

/// Adds an instance, which was judged at `h`, unless levels aren't read and the entries ahead leave
/// it no hope. As a call of its own it takes half a percent more of all loads but a burst.
#[inline(always)]
fn hold_hopeful(
    holding: &mut Holding,
    chart: &Chart<'_>,
    instance: Instance,
    ahead: &[Rc<Entry>],
    beyond: u64,
    h: u64,
) -> Result<(), AllocError>
    requires of { IsOf chart.now.plan instance }
    requires able { IsAble chart.now.plan chart.now.focus h instance }
    requires tidy { IsTidyHolding chart.now.plan chart.now.focus chart.now.hooks holding.old h }
    requires near { beyond ≤ 2 ^ 42 }
    requires small { h ≤ 2 ^ 42 }
    ensures tidy { OnOk result (IsTidyHolding chart.now.plan chart.now.focus chart.now.hooks holding.new h) }
    ensures comes { OnOk result (ComesOrGoes (MayGo chart.now.plan chart.now.focus (map (λ r. entry_of r.value) ahead.now) beyond) instance (members holding.old.slots.slots) (members holding.new.slots.slots)) }
{
    if !chart.focus() && !is_hopeful(chart.plan(), &instance, ahead, beyond) {
        return Ok(());
    }
    hold(holding, chart, instance, h)
}

/// Adds an instance that comes of others, unless it may be left out. Where it is done and the chronicle
/// has no windows, it may be added as its recognition: nothing can happen to it before the mark. It comes
/// so where levels are read alone, since else the event that completes it makes the recognition.
#[inline(always)]
fn hold_born(
    holding: &mut Holding,
    found: &mut Vec<Recognition>,
    chart: &Chart<'_>,
    instance: Instance,
    birth: &Birth<'_>,
) -> Result<(), AllocError>
    requires of { IsOf chart.now.plan instance }
    requires able { IsAble chart.now.plan chart.now.focus birth.now.h instance }
    requires tidy { IsTidyHolding chart.now.plan chart.now.focus chart.now.hooks holding.old birth.now.h }
    requires kept { AllOf chart.now.plan (founds chart.now.plan found.old.items) }
    requires near { birth.now.beyond ≤ 2 ^ 42 }
    requires small { birth.now.h ≤ 2 ^ 42 }
    ensures tidy { OnOk result (IsTidyHolding chart.now.plan chart.now.focus chart.now.hooks holding.new birth.now.h) }
    ensures kept { OnOk result (AllOf chart.now.plan (founds chart.now.plan found.new.items)) }
    ensures comes { OnOk result (ComesOrGoes (MayGo chart.now.plan chart.now.focus (map (λ r. entry_of r.value) birth.now.ahead.now) birth.now.beyond) instance (held_in chart.now.plan holding.old.slots found.old.items) (held_in chart.now.plan holding.new.slots found.new.items)) }
    ensures placed { birth.now.finds ≡ false → found.new.items ≡ found.old.items }
{
    if chart.focus() && birth.finds && chart.is_windowless() && instance.is_whole() {
        return find(found, &instance);
    }
    hold_hopeful(holding, chart, instance, birth.ahead, birth.beyond, birth.h)
}

/// Adds the instances that come of others, but for those that may be left out.
#[inline(always)]
pub(crate) fn hold_all(
    holding: &mut Holding,
    chart: &Chart<'_>,
    born: &mut Born,
    birth: &Birth<'_>,
) -> Result<(), AllocError>
    requires of { AllOf chart.now.plan born.old.instances.items }
    requires able { AllByRecursion (IsAble chart.now.plan chart.now.focus birth.now.h) born.old.instances.items }
    requires tidy { IsTidyHolding chart.now.plan chart.now.focus chart.now.hooks holding.old birth.now.h }
    requires kept { AllOf chart.now.plan (founds chart.now.plan born.old.found.items) }
    requires near { birth.now.beyond ≤ 2 ^ 42 }
    requires small { birth.now.h ≤ 2 ^ 42 }
    ensures tidy { OnOk result (IsTidyHolding chart.now.plan chart.now.focus chart.now.hooks holding.new birth.now.h) }
    ensures kept { OnOk result (AllOf chart.now.plan (founds chart.now.plan born.new.found.items)) }
    ensures joins { OnOk result (JoinsSome (MayGo chart.now.plan chart.now.focus (map (λ r. entry_of r.value) birth.now.ahead.now) birth.now.beyond) (held_in chart.now.plan holding.old.slots born.old.found.items) born.old.instances.items (held_in chart.now.plan holding.new.slots born.new.found.items)) }
    ensures placed { OnOk result (birth.now.finds ≡ false → born.new.found.items ≡ born.old.found.items) }
{
    while let Some(instance) = born.instances.pop() {
        hold_born(holding, &mut born.found, chart, instance, birth)?;
    }
    Ok(())
}

/// Whether the window counts the entry, and the count is enough with it.
#[inline(always)]
fn is_just_enough(chart: &Chart<'_>, instance: &Instance, k: u8, entry: &Entry) -> bool
    requires { k < length chart.now.plan.chronicle.windows }
{
    let Body::Occurs {
        least,
        most,
        pattern,
    } = &chart.plan().chronicle.windows.as_slice()[k as usize].body
    else {
        return false;
    };
    if most.is_some() || *least == 0 {
        return false;
    }
    instance.progress(k).count == *least && pattern.name == entry.name
}

/// Whether a window's count has just become enough by the entry. Either answer is right: it tells
/// alone when an instance gets another handle, once a window.
#[inline(always)]
fn has_enough_now(chart: &Chart<'_>, instance: &Instance, entry: Option<&Entry>) -> bool {
    let Some(entry) = entry else {
        return false;
    };
    for k in 0..chart.windows() {
        if is_just_enough(chart, instance, k, entry) {
            return true;
        }
    }
    false
}

/// Finds again what stands in the place and was judged at `h`: what is done is named, and what isn't
/// waits for each awaited event that can come by then and couldn't by `since`, and for each window
/// that begins by the date after `h` and didn't by the one after `since`. Where a count has just
/// become enough it gets another handle, and all it waits for anew: so no later entry of that
/// window finds it.
fn settle_place(
    holding: &mut Holding,
    chart: &Chart<'_>,
    place: u32,
    entry: Option<&Entry>,
    since: u64,
    h: u64,
) -> Result<(), AllocError>
    requires of { (i : _) → slot_at holding.old.slots place ≡ Some i → IsOf chart.now.plan i }
    requires stood { holding.old.dues.date ≤ h }
    requires small { h ≤ 2 ^ 42 }
    ensures { OnOk result (SettlesPlace chart.now.plan chart.now.focus chart.now.hooks place since h holding.old holding.new) }
{
    let Some(instance) = holding.slots.get(place) else {
        return Ok(());
    };
    let judging = Judging {
        plan: chart.plan(),
        focus: chart.focus(),
        h,
    };
    if is_done(&judging, instance) {
        holding.ripe.push(place)?;
        return Ok(());
    }
    if has_enough_now(chart, instance, entry) {
        holding.slots.renew(place);
        register(holding, chart, place, h)?;
        return Ok(());
    }
    let handle = holding.slots.handle(place);
    find_anew(&mut holding.waiting, chart, instance, handle, since, h)?;
    Ok(())
}

/// Finds again what stands in the places and was judged at `h`.
fn settle_places(
    holding: &mut Holding,
    chart: &Chart<'_>,
    places: &[u32],
    entry: Option<&Entry>,
    since: u64,
    h: u64,
) -> Result<(), AllocError>
    requires of { (p : _) (i : _) → slot_at holding.old.slots p ≡ Some i → IsOf chart.now.plan i }
    requires ordered { IsStrictlySortedBy nat_cmp places.now }
    requires stood { holding.old.dues.date ≤ h }
    requires small { h ≤ 2 ^ 42 }
    ensures { OnOk result (SettlesPlaces chart.now.plan chart.now.focus chart.now.hooks places.now since h holding.old holding.new) }
{
    for place in places {
        settle_place(holding, chart, *place, entry, since, h)?;
    }
    Ok(())
}

/// Takes in an entry: what it touches and what is due before its date is judged anew at its date,
/// and what can't be recognised any more goes.
#[inline(always)]
pub(crate) fn follow(
    holding: &mut Holding,
    chart: &Chart<'_>,
    history: &History,
    entry: &Entry,
    since: u64,
    places: &mut Vec<u32>,
) -> Result<(), AllocError>
    requires tidy { IsTidyHolding chart.now.plan chart.now.focus chart.now.hooks holding.old since }
    requires later { since ≤ entry.now.date }
    requires date { entry.now.date < 2 ^ 40 }
    ensures tidy { OnOk result (IsTidyHolding chart.now.plan chart.now.focus chart.now.hooks holding.new entry.now.date) }
    ensures renews { OnOk result (Renews (IsFollowed chart.now.plan history.now (entry_of entry.now) since) (IsAble chart.now.plan chart.now.focus entry.now.date) (members holding.old.slots.slots) (members holding.new.slots.slots)) }
{
    let plan = chart.plan();
    sweep(holding);
    places.clear();
    collect_due(&mut holding.dues, entry.date, places)?;
    note_touched(&mut holding.waiting, &holding.slots, chart, entry, places)?;
    if places.is_empty() {
        return Ok(());
    }
    sort_places(places);
    let places = places.as_slice();
    let passing = Passing {
        judging: Judging {
            plan,
            focus: chart.focus(),
            h: entry.date,
        },
        history,
        since,
    };
    follow_places(&passing, &mut holding.slots, places, entry);
    settle_places(holding, chart, places, Some(entry), since, entry.date)?;
    Ok(())
}

/// Passes the dates up to `h`: what is due before is judged anew at `h`, and what can't be
/// recognised any more goes.
#[inline(always)]
pub(crate) fn pass(
    holding: &mut Holding,
    chart: &Chart<'_>,
    history: &History,
    since: u64,
    h: u64,
    places: &mut Vec<u32>,
) -> Result<(), AllocError>
    requires tidy { IsTidyHolding chart.now.plan chart.now.focus chart.now.hooks holding.old since }
    requires later { since ≤ h }
    requires small { h ≤ 2 ^ 42 }
    ensures tidy { OnOk result (IsTidyHolding chart.now.plan chart.now.focus chart.now.hooks holding.new h) }
    ensures renews { OnOk result (Renews (IsPassed chart.now.plan history.now since h) (IsAble chart.now.plan chart.now.focus h) (members holding.old.slots.slots) (members holding.new.slots.slots)) }
{
    let plan = chart.plan();
    sweep(holding);
    // No date passes where the next entry has the date of this one: in a third of the drill's entries.
    if since == h {
        return Ok(());
    }
    places.clear();
    collect_due(&mut holding.dues, h, places)?;
    if places.is_empty() {
        return Ok(());
    }
    sort_places(places);
    let places = places.as_slice();
    let passing = Passing {
        judging: Judging {
            plan,
            focus: chart.focus(),
            h,
        },
        history,
        since,
    };
    pass_places(&passing, &mut holding.slots, places);
    settle_places(holding, chart, places, None, since, h)?;
    Ok(())
}
