ghost use Rattle.std.specs.Prelude.{◌≡◌, ◌≤◌, ◌<◌, ◌/◌, ◌%◌, ◌^◌, ◌⊎◌, length, map, MatchOption, IfSome, Some, IsTrue, ◌↔◌};
ghost use Rattle.crs_base.specs.declared.symbols.Sym.{Sym};
ghost use Rattle.crs_model.specs.Bits.{HasBits};
ghost use Rattle.crs_model.specs.Levels.{level_in};
ghost use Rattle.crs_model.specs.Partial.{Partial};
ghost use Rattle.crs_model.specs.Plans.{chronicle, IsProper};
ghost use Rattle.crs_model.specs.SeenModels.{event_of};
ghost use Rattle.crs_focus.specs.Current.{AreAllBound, IsCurrent, IsLeastUnset, IsUnset};

use crs_model::{EventDef, Plan};

/// Whether the bit at the place, from the least, isn't set.
fn is_unset(bits: u16, place: usize) -> bool
    requires { place < 16 }
    ensures { IsTrue result ↔ IsUnset bits place }
{
    bits >> place & 1 == 0
}

/// The level of the event, from 0 to 7, which is 0 without focus.
pub fn level_of(plan: &Plan, event: u8, focus: bool) -> u8
    requires { event < length plan.now.chronicle.events }
    ensures { result ≡ level_in (chronicle plan.now).events focus event }
{
    level_at(plan.chronicle.events.as_slice(), event as usize, focus)
}

/// The level of the event at a place, which is 0 where levels aren't read.
fn level_at(events: &[EventDef], place: usize, focus: bool) -> u8
    requires { place < length events.now }
    ensures { result ≡ level_in (map event_of events.now) focus place }
{
    if focus { events[place].level } else { 0 }
}

/// The lesser level.
fn lesser(least: Option<u8>, level: u8) -> u8
    ensures not_above { (result ≤ level) × IfSome least (λ l. result ≤ l) }
    ensures one_of { (result ≡ level) ⊎ (least ≡ Some result) }
{
    match least {
        None => level,
        Some(least) => least.min(level),
    }
}

/// The least level of an event whose bit isn't set.
fn least_unset(events: &[EventDef], bits: u16, focus: bool) -> Option<u8>
    requires { length events.now ≤ 16 }
    ensures { IsLeastUnset (level_in (map event_of events.now) focus) bits (length events.now) result }
{
    let mut least = None;
    for place in 0..events.len() {
        if is_unset(bits, place) {
            least = Some(lesser(least, level_at(events, place, focus)));
        }
    }
    least
}

/// The least level of an unbound event, from 0 to 7. Bit `e` of `bound`, from the least, is set
/// exactly where event `e` is bound. None exactly where all events are bound. Without focus every
/// event counts as of level 0. It takes no memory.
pub fn current_level(plan: &Plan, bound: u16, focus: bool) -> Option<u8>
    requires { IsProper plan.now }
    ensures { (a : Partial Sym) → length a ≡ length plan.now.chronicle.events → HasBits a bound → MatchOption result (AreAllBound a) (IsCurrent (level_in (chronicle plan.now).events focus) a) }
{
    least_unset(plan.chronicle.events.as_slice(), bound, focus)
}
