//! The forks of the instances that may come of an entry.
ghost use Rattle.std.specs.Prelude.{◌≡◌, ◌⊎◌, ◌+◌, ◌*◌, ◌<◌, ◌≤◌, ◌^◌, [], length, None, Some, true, false, OnOk};
ghost use Rattle.std.specs.List.Sorted.{IsStrictlySortedBy};
ghost use Rattle.std.specs.Ordering.{nat_cmp};
ghost use Rattle.crs_base.specs.Seen.{entry_of};
ghost use Rattle.crs_base.specs.Words.{IsIn};
ghost use Rattle.crs_index.specs.Indexes.{bucket_of};
ghost use Rattle.crs_instance.specs.Instances.{IsOf, IsForked};
ghost use Rattle.crs_focus.specs.PlanLevels.{levels_in};
ghost use Rattle.crs_model.specs.Partial.{at, put, IsAwaited};
ghost use Rattle.crs_model.specs.Plans.{IsProper};
ghost use Rattle.crs_store.specs.Births.{Brings, FindsFork};
ghost use Rattle.crs_store.specs.Forkings.{HaveWindow, NoneWait, IsNoted, AreCandidates, AreCandidatesOf, KeepsStanding, AreLinkedAt, HasAll, AreSought, AreForksBut, AreForksOfPlaces, AreForksOfEvent, AreForksOfAll};
ghost use Rattle.crs_waiting.specs.Hooks.{IsHookAt, KeepsFresh, picked_arguments};
ghost use Rattle.crs_waiting.specs.Links.{hook_at};
ghost use Rattle.crs_store.specs.Waiters.{AreLinked};
ghost use Rattle.crs_store.specs.Moments.{IsArrival};
ghost use Rattle.crs_waiting.specs.Orders.{IsOvertaken};
ghost use Rattle.crs_living.specs.Slots.{members};
ghost use Rattle.crs_living.specs.Parts.{AllOf};
ghost use Rattle.crs_living.specs.Scannings.{AreForksAt};
ghost use Rattle.crs_living.specs.Done.{is_whole};

use crate::found::Born;
use crate::moment::Arrival;
use crate::scanning::agreeing::{agree, takes};
use crs_base::{Entry, Steps};
use crs_focus::{is_awaited, level_of};
use crs_index::{Index, Key};
use crs_instance::{Dated, Fork, Instance};
use crs_living::{Scan, Slots, decide, keep_fork};
use crs_model::{Binding, Mark, Plan, Recognition};
use crs_waiting::{
    Hook, Symbols, argument_in, is_held_back, is_lone, key_of_first, key_of_symbols, note_place,
    part_of_symbols, parts_of_symbols, sort_places, symbols_of_entry,
};
use std::alloc::AllocError;
use std::sync::ledger::Ledger;

/// Adds what comes of the instance where the event is bound to the entry, unless an event that comes
/// before it is unbound, and such are skipped.
fn push_forks<L: Ledger>(
    arrival: &Arrival<'_>,
    instance: &Instance,
    event: u8,
    steps: &mut Steps<L>,
    out: &mut Born,
) -> Result<(), AllocError>
    requires arrival { IsArrival arrival.now }
    requires of { IsOf arrival.now.plan.now instance.now }
    requires event { event < length arrival.now.plan.now.chronicle.events }
    ensures forks { OnOk result (Brings arrival.now.plan.now arrival.now.focus arrival.now.finds arrival.now.until (AreForksBut arrival.now.plan.now arrival.now.focus (IsOvertaken arrival.now.plan.now arrival.now.focus arrival.now.hooks.now.events.items arrival.now.skips (entry_of arrival.now.entry.now.value)) arrival.now.history.now (entry_of arrival.now.entry.now.value) arrival.now.since arrival.now.until instance.now event) out.old.instances.items out.new.instances.items out.old.found.items out.new.found.items) }
    ensures cost { arrival.now.focus ≡ false → steps.new ≤ steps.old + 1 }
{
    let chart = arrival.chart();
    let hook = chart.event_hook(event);
    if arrival.skips && is_held_back(hook, instance) {
        return Ok(());
    }
    push_open_forks(arrival, instance, event, steps, out)
}

/// Adds the recognition of what comes of the instance where the event is bound to the entry, where that
/// is the only one that is unbound.
#[inline(never)]
fn push_done<L: Ledger>(
    arrival: &Arrival<'_>,
    instance: &Instance,
    event: u8,
    steps: &mut Steps<L>,
    found: &mut Vec<Recognition>,
) -> Result<(), AllocError>
    requires proper { IsProper arrival.now.plan.now }
    requires of { IsOf arrival.now.plan.now instance.now }
    requires event { event < length arrival.now.plan.now.chronicle.events }
    requires unbound { at instance.now.partial event ≡ None }
    requires whole { is_whole (put instance.now.partial event (entry_of arrival.now.entry.now.value)) ≡ true }
    requires date { arrival.now.entry.now.value.date < 2 ^ 40 }
    ensures found { OnOk result (FindsFork arrival.now.plan.now instance.now event (entry_of arrival.now.entry.now.value) found.old.items found.new.items) }
    ensures cost { steps.new ≡ steps.old + 1 }
{
    let Some(completed) = instance.complete(arrival.plan, event, arrival.entry, steps)? else {
        return Ok(());
    };
    found.push(Recognition {
        chronicle: 0,
        mark: Mark::Finish,
        entries: completed.entries,
        binding: completed.binding,
    })?;
    Ok(())
}

/// Adds what comes of what the instance becomes: itself, or, where levels are read and the entry completes
/// one, what is made of it by the entries that are there.
fn push_fork<L: Ledger>(
    arrival: &Arrival<'_>,
    instance: &Instance,
    fork: Fork<'_>,
    event: u8,
    steps: &mut Steps<L>,
    out: &mut Born,
) -> Result<(), AllocError>
    requires arrival { IsArrival arrival.now }
    requires of { IsOf arrival.now.plan.now instance.now }
    requires event { event < length arrival.now.plan.now.chronicle.events }
    requires awaited { IsAwaited (levels_in arrival.now.plan.now arrival.now.focus) instance.now.partial event }
    requires forked { IsForked arrival.now.plan.now instance.now event (entry_of arrival.now.entry.now.value) (Some fork) }
    ensures forks { OnOk result (Brings arrival.now.plan.now arrival.now.focus arrival.now.finds arrival.now.until (AreForksAt arrival.now.plan.now arrival.now.focus arrival.now.history.now (entry_of arrival.now.entry.now.value) arrival.now.since arrival.now.until instance.now event) out.old.instances.items out.new.instances.items out.old.found.items out.new.found.items) }
    ensures cost { arrival.now.focus ≡ false → steps.new ≡ steps.old }
{
    let scan = Scan {
        alloc: arrival.alloc,
        plan: arrival.plan,
        focus: arrival.focus,
        parent: instance,
        history: arrival.history,
        entry: arrival.entry,
        since: arrival.since,
        until: arrival.until,
    };
    if !arrival.focus {
        return keep_fork(&scan, fork, &mut out.progress, &mut out.instances);
    }
    let next = fork.make(instance.all_progress())?;
    let level = level_of(arrival.plan, event, arrival.focus);
    let todo = Vec::new(arrival.alloc);
    decide(&scan, next, level, todo, steps, &mut out.instances)
}

/// Adds what comes of the instance where the event is bound to the entry: a copy with the event bound
/// too, or, where that completes a level, what is made of it by the entries that are there. Each of
/// them can be and can go on at the date `until`, and no window of theirs is lost then.
/// It takes memory only for what is added, and where levels are read where the pattern fits the entry.
fn push_open_forks<L: Ledger>(
    arrival: &Arrival<'_>,
    instance: &Instance,
    event: u8,
    steps: &mut Steps<L>,
    out: &mut Born,
) -> Result<(), AllocError>
    requires arrival { IsArrival arrival.now }
    requires of { IsOf arrival.now.plan.now instance.now }
    requires event { event < length arrival.now.plan.now.chronicle.events }
    ensures forks { OnOk result (Brings arrival.now.plan.now arrival.now.focus arrival.now.finds arrival.now.until (AreForksAt arrival.now.plan.now arrival.now.focus arrival.now.history.now (entry_of arrival.now.entry.now.value) arrival.now.since arrival.now.until instance.now event) out.old.instances.items out.new.instances.items out.old.found.items out.new.found.items) }
    ensures cost { arrival.now.focus ≡ false → steps.new ≤ steps.old + 1 }
{
    if !is_awaited(arrival.plan, arrival.focus, instance, event) {
        return Ok(());
    }
    if arrival.finds && instance.lacks_only(event) {
        return push_done(arrival, instance, event, steps, &mut out.found);
    }
    if !instance.can_wait_with(
        arrival.plan,
        event,
        arrival.entry.date,
        arrival.focus,
        arrival.until,
    ) {
        return Ok(());
    }
    match instance.fork(arrival.plan, event, arrival.entry, steps) {
        None => Ok(()),
        Some(fork) => push_fork(arrival, instance, fork, event, steps, out),
    }
}

/// An event, and what an instance has to leave to it that is to have an entry: its date, and the symbols
/// of the pattern's variables. Of the chronicle's variables so many are compared.
#[derive(Drop)]
struct Wanted {
    event: u8,
    date: u64,
    symbols: Binding,
    variables: u8,
}

/// Notes the place, if an instance stands there that leaves the date and the symbols to the event.
#[inline(always)]
fn note_able(
    slots: &Slots,
    place: u32,
    wanted: &Wanted,
    places: &mut Vec<u32>,
) -> Result<(), AllocError>
    requires windows { HaveWindow slots.now wanted.now.event }
    requires date { wanted.now.date < 2 ^ 40 }
    ensures noted { OnOk result (IsNoted slots.now wanted.now.event wanted.now.date wanted.now.symbols places.new.items place) }
    ensures kept { (p : _) → IsIn p places.old.items → IsIn p places.new.items }
{
    let Some(instance) = slots.get(place) else {
        return Ok(());
    };
    if !instance.can_come(wanted.event, wanted.date) {
        return Ok(());
    }
    if agree(instance.binding(), &wanted.symbols, wanted.variables) {
        note_place(places, place)
    } else {
        Ok(())
    }
}

/// Notes the places of those that wait under the key, and leave the date and the symbols to the event.
#[inline(always)]
fn note_able_bucket(
    waiting: &mut Index,
    slots: &Slots,
    key: Key,
    wanted: &Wanted,
    places: &mut Vec<u32>,
) -> Result<(), AllocError>
    requires windows { HaveWindow slots.now wanted.now.event }
    requires date { wanted.now.date < 2 ^ 40 }
    ensures fresh { KeepsFresh slots.now.serials waiting.old waiting.new }
    ensures standing { KeepsStanding slots.now waiting.old waiting.new }
    ensures noted { OnOk result (AreCandidates slots.now waiting.old key wanted.now.event wanted.now.date wanted.now.symbols places.new.items) }
    ensures kept { (p : _) → IsIn p places.old.items → IsIn p places.new.items }
{
    let Some(number) = waiting.find(&key) else {
        return Ok(());
    };
    waiting.clean(number, slots.serials());
    for handle in waiting.bucket(number) {
        note_able(slots, handle.place, wanted, places)?;
    }
    Ok(())
}

/// Notes the places of those that wait under a part of these symbols, and leave the date and the symbols
/// to the event. An instance waits under what it knows: 4 keys where the pattern has two variables, 8
/// where it has three. A key that nobody waits under costs some ten instructions.
fn note_parts(
    waiting: &mut Index,
    slots: &Slots,
    symbols: Symbols,
    wanted: &Wanted,
    places: &mut Vec<u32>,
) -> Result<(), AllocError>
    requires windows { HaveWindow slots.now wanted.now.event }
    requires date { wanted.now.date < 2 ^ 40 }
    ensures fresh { KeepsFresh slots.now.serials waiting.old waiting.new }
    ensures standing { KeepsStanding slots.now waiting.old waiting.new }
    ensures noted { OnOk result (AreCandidatesOf slots.now waiting.old symbols wanted.now.event wanted.now.date wanted.now.symbols places.new.items) }
{
    for number in 0..parts_of_symbols(symbols) {
        let key = key_of_symbols(wanted.event as u32, part_of_symbols(symbols, number));
        note_able_bucket(waiting, slots, key, wanted, places)?;
    }
    Ok(())
}

/// Notes the places of those that wait for such an entry, and leave the date and the symbols to the event.
/// Where the pattern has one variable that another event has, there are two keys, and where it has none,
/// one: looked at twice, it took 2 % of the load that counts entries in windows.
fn note_candidates(
    waiting: &mut Index,
    slots: &Slots,
    hook: &Hook,
    entry: &Entry,
    wanted: &Wanted,
    places: &mut Vec<u32>,
) -> Result<(), AllocError>
    requires windows { HaveWindow slots.now wanted.now.event }
    requires date { wanted.now.date < 2 ^ 40 }
    ensures fresh { KeepsFresh slots.now.serials waiting.old waiting.new }
    ensures standing { KeepsStanding slots.now waiting.old waiting.new }
    ensures noted { OnOk result (AreCandidatesOf slots.now waiting.old (picked_arguments hook.now entry.now.args) wanted.now.event wanted.now.date wanted.now.symbols places.new.items) }
{
    if !is_lone(hook) {
        let symbols = symbols_of_entry(hook, entry);
        return note_parts(waiting, slots, symbols, wanted, places);
    }
    let class = wanted.event as u32;
    let lacking = key_of_first(class, None);
    note_able_bucket(waiting, slots, lacking, wanted, places)?;
    let symbol = argument_in(hook.first, entry);
    if symbol.is_none() {
        return Ok(());
    }
    note_able_bucket(waiting, slots, key_of_first(class, symbol), wanted, places)
}

/// Adds the forks at the event of what stands in the places.
fn forks_at<L: Ledger>(
    arrival: &Arrival<'_>,
    slots: &Slots,
    places: &[u32],
    event: u8,
    steps: &mut Steps<L>,
    out: &mut Born,
) -> Result<(), AllocError>
    requires arrival { IsArrival arrival.now }
    requires of { AllOf arrival.now.plan.now (members slots.now.slots) }
    requires event { event < length arrival.now.plan.now.chronicle.events }
    requires ordered { IsStrictlySortedBy nat_cmp places.now }
    ensures forks { OnOk result (Brings arrival.now.plan.now arrival.now.focus arrival.now.finds arrival.now.until (AreForksOfPlaces arrival.now.plan.now arrival.now.focus (IsOvertaken arrival.now.plan.now arrival.now.focus arrival.now.hooks.now.events.items arrival.now.skips (entry_of arrival.now.entry.now.value)) arrival.now.history.now (entry_of arrival.now.entry.now.value) arrival.now.since arrival.now.until slots.now event places.now) out.old.instances.items out.new.instances.items out.old.found.items out.new.found.items) }
    ensures cost { arrival.now.focus ≡ false → steps.new ≤ steps.old + length (members slots.now.slots) }
{
    for place in places {
        let Some(instance) = slots.get(*place) else {
            continue;
        };
        push_forks(arrival, instance, event, steps, out)?;
    }
    Ok(())
}

/// How many variables are compared before an instance is forked. A lone one isn't, as the key under which
/// an instance waits tells it already: that takes half a percent off the drill.
fn compared(plan: &Plan) -> u8
    requires { length plan.now.chronicle.variables ≤ 16 }
{
    let count = plan.chronicle.variables.len() as u8;
    if count < 2 { 0 } else { count }
}

/// Notes the places of all that are held.
fn note_all(slots: &Slots, places: &mut Vec<u32>) -> Result<(), AllocError>
    ensures { OnOk result (HasAll slots.now places.new.items) }
{
    for place in 0..slots.places() {
        let Ok(place) = u32::try_from(place) else {
            return Err(AllocError);
        };
        note_place(places, place)?;
    }
    Ok(())
}

/// An event, and what it looks for.
#[derive(Clone, Copy, Drop)]
struct Sought<'a> {
    event: u8,
    hook: &'a Hook,
}

/// Notes the places of those of which something may come by the entry at the event. Where others than
/// those that wait for it may be among them, all are noted: no entry that comes in the order of ranks,
/// as all entries of a log do, costs that.
fn note_sought(
    arrival: &Arrival<'_>,
    sought: Sought<'_>,
    slots: &Slots,
    waiting: &mut Index,
    wanted: &Wanted,
    places: &mut Vec<u32>,
) -> Result<(), AllocError>
    requires windows { HaveWindow slots.now wanted.now.event }
    requires date { wanted.now.date < 2 ^ 40 }
    ensures fresh { KeepsFresh slots.now.serials waiting.old waiting.new }
    ensures standing { KeepsStanding slots.now waiting.old waiting.new }
    ensures noted { OnOk result (AreSought slots.now waiting.old sought.entry.hook.now arrival.now.skips (entry_of arrival.now.entry.now.value).args wanted.now.event wanted.now.date wanted.now.symbols places.new.items) }
{
    places.clear();
    if !arrival.skips && sought.hook.before.is_some() {
        return note_all(slots, places);
    }
    note_candidates(waiting, slots, sought.hook, arrival.entry, wanted, places)
}

/// Whether some handle, fresh or stale, waits under the key.
#[inline(always)]
fn has_some(waiting: &Index, key: Key) -> bool
    ensures { result ≡ false → bucket_of waiting.now key ≡ [] }
{
    match waiting.find(&key) {
        Some(number) => !waiting.bucket(number).is_empty(),
        None => false,
    }
}

/// Whether some handle may wait for such an entry at the event. Where the hook picks more than one
/// variable, that isn't looked at.
#[inline(always)]
fn may_wait(waiting: &Index, hook: &Hook, event: u8, entry: &Entry) -> bool
    ensures { result ≡ false → NoneWait waiting.now (picked_arguments hook.now entry.now.args) event }
{
    if !is_lone(hook) {
        return true;
    }
    let class = event as u32;
    if has_some(waiting, key_of_first(class, None)) {
        return true;
    }
    let symbol = argument_in(hook.first, entry);
    symbol.is_some() && has_some(waiting, key_of_first(class, symbol))
}

/// Whether no instance of which something may come waits for the entry. More than half of the drill's
/// entries come to none: that this is seen before they are compared with the event's pattern takes 2 % off.
#[inline(always)]
fn comes_to_none(arrival: &Arrival<'_>, sought: Sought<'_>, waiting: &Index) -> bool
    ensures { result ≡ true → NoneWait waiting.now (picked_arguments sought.entry.hook.now (entry_of arrival.now.entry.now.value).args) sought.entry.event × ((arrival.now.skips ≡ true) ⊎ (sought.entry.hook.now.before ≡ None)) }
{
    if !arrival.skips && sought.hook.before.is_some() {
        return false;
    }
    !may_wait(waiting, sought.hook, sought.event, arrival.entry)
}

/// Adds the forks of all instances at the event, for which such a hook looks; the entry has its name. The
/// index isn't looked at where the pattern refuses the entry: 4,000 entries that a constant refuses took
/// 10,300 million instructions where 4,000 instances wait for them, and take 47.
fn forks_of_event<L: Ledger>(
    arrival: &Arrival<'_>,
    sought: Sought<'_>,
    slots: &Slots,
    waiting: &mut Index,
    steps: &mut Steps<L>,
    places: &mut Vec<u32>,
    out: &mut Born,
) -> Result<(), AllocError>
    requires arrival { IsArrival arrival.now }
    requires of { AllOf arrival.now.plan.now (members slots.now.slots) }
    requires event { sought.event < length arrival.now.plan.now.chronicle.events }
    requires hook { IsHookAt arrival.now.plan.now sought.event sought.hook.now }
    requires same { sought.hook.now ≡ hook_at arrival.now.hooks.now.events.items sought.event }
    requires linked { AreLinkedAt arrival.now.plan.now arrival.now.focus sought.hook.now slots.now waiting.old sought.event arrival.now.entry.now.value.date }
    ensures fresh { KeepsFresh slots.now.serials waiting.old waiting.new }
    ensures standing { KeepsStanding slots.now waiting.old waiting.new }
    ensures forks { OnOk result (Brings arrival.now.plan.now arrival.now.focus arrival.now.finds arrival.now.until (AreForksOfEvent arrival.now.plan.now arrival.now.focus (IsOvertaken arrival.now.plan.now arrival.now.focus arrival.now.hooks.now.events.items arrival.now.skips (entry_of arrival.now.entry.now.value)) arrival.now.history.now (entry_of arrival.now.entry.now.value) arrival.now.since arrival.now.until slots.now sought.entry.event) out.old.instances.items out.new.instances.items out.old.found.items out.new.found.items) }
    ensures cost { arrival.now.focus ≡ false → steps.new ≤ steps.old + 2 * length (members slots.now.slots) }
{
    if slots.len() == 0 {
        return Ok(());
    }
    if comes_to_none(arrival, sought, waiting) {
        return Ok(());
    }
    let mut wanted = Wanted {
        event: sought.event,
        date: arrival.entry.date,
        symbols: Binding::new(arrival.plan.chronicle.variables.len() as u8),
        variables: compared(arrival.plan),
    };
    if !takes(
        arrival.plan,
        sought.event,
        arrival.entry,
        &mut wanted.symbols,
        steps,
    ) {
        return Ok(());
    }
    note_sought(arrival, sought, slots, waiting, &wanted, places)?;
    sort_places(places);
    let places = places.as_slice();
    forks_at(arrival, slots, places, sought.event, steps, out)
}

/// What the event looks for. The loop over the events lends the hooks once: by the chart, which looks them
/// up at each, it takes 0.8 % more of the drill.
#[inline(always)]
fn event_hook_in(hooks: &[Hook], event: u8) -> &Hook
    requires { event < length hooks.now }
    ensures { result.now ≡ hook_at hooks.now event }
{
    &hooks[event as usize]
}

/// Fills `out` with what comes of all instances where one of their awaited events is bound to the
/// entry, judged at the date `until`. Only events that look for the entry's name are tried, one after
/// another: a loop over all took 1.5 % more of the drill, whose larger chronicle has eight.
#[inline(always)]
pub(crate) fn forks<L: Ledger>(
    arrival: &Arrival<'_>,
    slots: &Slots,
    waiting: &mut Index,
    steps: &mut Steps<L>,
    places: &mut Vec<u32>,
    out: &mut Born,
) -> Result<(), AllocError>
    requires arrival { IsArrival arrival.now }
    requires of { AllOf arrival.now.plan.now (members slots.now.slots) }
    requires linked { AreLinked arrival.now.plan.now arrival.now.focus arrival.now.hooks.now.events.items slots.now waiting.old arrival.now.entry.now.value.date }
    ensures fresh { KeepsFresh slots.now.serials waiting.old waiting.new }
    ensures standing { KeepsStanding slots.now waiting.old waiting.new }
    ensures forks { OnOk result (Brings arrival.now.plan.now arrival.now.focus arrival.now.finds arrival.now.until (AreForksOfAll arrival.now.plan.now arrival.now.focus (IsOvertaken arrival.now.plan.now arrival.now.focus arrival.now.hooks.now.events.items arrival.now.skips (entry_of arrival.now.entry.now.value)) arrival.now.history.now (entry_of arrival.now.entry.now.value) arrival.now.since arrival.now.until (members slots.now.slots)) [] out.new.instances.items out.old.found.items out.new.found.items) }
    ensures cost { arrival.now.focus ≡ false → steps.new ≤ steps.old + length arrival.now.plan.now.chronicle.events * (2 * length (members slots.now.slots)) }
{
    out.instances.clear();
    let hooks = arrival.hooks.events.as_slice();
    let mut event = arrival.hooks.first_of(arrival.entry.name);
    while (event as usize) < hooks.len() {
        let hook = event_hook_in(hooks, event);
        let sought = Sought { event, hook };
        forks_of_event(arrival, sought, slots, waiting, steps, places, out)?;
        event = arrival.hooks.next_of(event);
    }
    Ok(())
}
