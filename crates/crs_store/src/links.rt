//! For what instances wait, and who waits for an entry.
ghost use Rattle.std.specs.Prelude.{◌≡◌, ◌<◌, ◌^◌, true, length, OnOk};
ghost use Rattle.crs_agenda.specs.Freshness.{is_fresh};
ghost use Rattle.crs_base.specs.Seen.{entry_of};
ghost use Rattle.crs_base.specs.Words.{IsIn};
ghost use Rattle.crs_waiting.specs.Hooks.{Waits, KeepsFresh};
ghost use Rattle.crs_store.specs.Waiters.{HasWaiting, HasTouchedAt, HasTouched};
ghost use Rattle.crs_living.specs.Slots.{handle_at};

use crs_base::Entry;
use crs_index::{Index, Key};
use crs_living::Slots;
use crs_waiting::{Chart, Hook, key_of_entry, note_place, refuses};
use std::alloc::AllocError;

/// Notes the places of those that wait under the key.
pub(crate) fn note_bucket(
    waiting: &mut Index,
    slots: &Slots,
    key: Key,
    places: &mut Vec<u32>,
) -> Result<(), AllocError>
    ensures fresh { KeepsFresh slots.now.serials waiting.old waiting.new }
    ensures kept { (p : _) → IsIn p places.old.items → IsIn p places.new.items }
    ensures noted { OnOk result ((p : _) → is_fresh slots.now.serials (handle_at slots.now p) ≡ true → Waits waiting.old key (handle_at slots.now p) → IsIn p places.new.items) }
{
    let Some(number) = waiting.find(&key) else {
        return Ok(());
    };
    waiting.clean(number, slots.serials());
    for handle in waiting.bucket(number) {
        note_place(places, handle.place)?;
    }
    Ok(())
}

/// Notes the places of those of the class that wait for such an entry, where it has the hook's name. A
/// window's variables are all known once it has begun: one key is enough.
fn note_class(
    waiting: &mut Index,
    slots: &Slots,
    class: u32,
    hook: &Hook,
    entry: &Entry,
    places: &mut Vec<u32>,
) -> Result<(), AllocError>
    requires { class < 2 ^ 16 }
    ensures fresh { KeepsFresh slots.now.serials waiting.old waiting.new }
    ensures kept { (p : _) → IsIn p places.old.items → IsIn p places.new.items }
    ensures noted { OnOk result (HasWaiting slots.now waiting.old class hook.now (entry_of entry.now) places.new.items) }
{
    if hook.name != entry.name {
        return Ok(());
    }
    note_bucket(waiting, slots, key_of_entry(class, hook, entry), places)
}

/// Notes the places of those of which the entry may touch the window of this number.
#[inline(always)]
fn note_window(
    waiting: &mut Index,
    slots: &Slots,
    chart: &Chart<'_>,
    k: u8,
    entry: &Entry,
    places: &mut Vec<u32>,
) -> Result<(), AllocError>
    requires { k < length chart.now.plan.chronicle.windows }
    ensures fresh { KeepsFresh slots.now.serials waiting.old waiting.new }
    ensures kept { (p : _) → IsIn p places.old.items → IsIn p places.new.items }
    ensures noted { OnOk result (HasTouchedAt chart.now.plan chart.now.hooks.windows.items slots.now waiting.old (entry_of entry.now) k places.new.items) }
{
    let hook = chart.window_hook(k);
    if hook.name != entry.name {
        return Ok(());
    }
    let window = &chart.plan().chronicle.windows.as_slice()[k as usize];
    if refuses(&window.body, entry) {
        return Ok(());
    }
    note_class(waiting, slots, 16 + k as u32, hook, entry, places)
}

/// Notes the places of those of which the entry may touch a window.
#[inline(always)]
pub(crate) fn note_touched(
    waiting: &mut Index,
    slots: &Slots,
    chart: &Chart<'_>,
    entry: &Entry,
    places: &mut Vec<u32>,
) -> Result<(), AllocError>
    ensures fresh { KeepsFresh slots.now.serials waiting.old waiting.new }
    ensures kept { (p : _) → IsIn p places.old.items → IsIn p places.new.items }
    ensures noted { OnOk result (HasTouched chart.now.plan chart.now.hooks.windows.items slots.now waiting.old (entry_of entry.now) (length chart.now.plan.chronicle.windows) places.new.items) }
{
    for k in 0..chart.windows() {
        note_window(waiting, slots, chart, k, entry, places)?;
    }
    Ok(())
}
