//! Which instances the entries that come next leave hope.
ghost use Rattle.std.specs.Prelude.{◌≡◌, ◌<◌, ◌≤◌, ◌<ℤ◌, ◌^◌, ◌↔◌, false, length, map, pos, IsTrue};
ghost use Rattle.std.specs.List.{AllByRecursion};
ghost use Rattle.crs_base.specs.Seen.{entry_of};
ghost use Rattle.crs_instance.specs.Instances.{IsOf};
ghost use Rattle.crs_model.specs.Plans.{IsProper};
ghost use Rattle.crs_living.specs.Ahead.{IsHopeless};

use crs_base::{Entry, Sym};
use crs_instance::Instance;
use crs_model::Plan;
use std::rc::Rc;

/// Whether the entry has the name, and isn't dated after the date.
fn comes_by(entry: &Entry, name: Sym, last: i64) -> bool
    ensures { result ≡ false → entry.now.name ≡ name → last <ℤ pos entry.now.date }
{
    entry.name == name && last >= 0 && entry.date <= last as u64
}

/// Whether one of the entries has the name, and isn't dated after the date.
fn one_comes_by(ahead: &[Rc<Entry>], name: Sym, last: i64) -> bool
    ensures { result ≡ false → AllByRecursion (λ x. x.name ≡ name → last <ℤ pos x.date) (map (λ r. entry_of r.value) ahead.now) }
{
    let mut left = ahead;
    while let Some((entry, rest)) = left.split_first() {
        if comes_by(entry, name, last) {
            return true;
        }
        left = rest;
    }
    false
}

/// Whether the one date is before the other.
fn is_before(last: i64, h: u64) -> bool
    requires { h ≤ 2 ^ 42 }
    ensures { IsTrue result ↔ (last <ℤ pos h) }
{
    last < h as i64
}

/// Whether the event is bound, or can come at or after `beyond`, or as one of the entries ahead.
fn may_come(plan: &Plan, instance: &Instance, event: u8, ahead: &[Rc<Entry>], beyond: u64) -> bool
    requires proper { IsProper plan.now }
    requires of { IsOf plan.now instance.now }
    requires event { event < length plan.now.chronicle.events }
    requires small { beyond ≤ 2 ^ 42 }
    ensures { result ≡ false → IsHopeless plan.now (map (λ r. entry_of r.value) ahead.now) beyond instance.now }
{
    if instance.is_bound(event) {
        return true;
    }
    let Some(last) = instance.date_window(event).most else {
        return true;
    };
    if !is_before(last, beyond) {
        return true;
    }
    let name = plan.chronicle.events.as_slice()[event as usize]
        .pattern
        .name;
    one_comes_by(ahead, name, last)
}

/// Whether each unbound event of the instance can come at or after `beyond`, or as one of the entries
/// ahead, as far as its dates and their names tell.
pub fn is_hopeful(plan: &Plan, instance: &Instance, ahead: &[Rc<Entry>], beyond: u64) -> bool
    requires proper { IsProper plan.now }
    requires of { IsOf plan.now instance.now }
    requires small { beyond ≤ 2 ^ 42 }
    ensures { result ≡ false → IsHopeless plan.now (map (λ r. entry_of r.value) ahead.now) beyond instance.now }
{
    if instance.can_go_on(beyond) {
        return true;
    }
    for event in 0..plan.chronicle.events.len() as u8 {
        if !may_come(plan, instance, event, ahead, beyond) {
            return false;
        }
    }
    true
}
