//! For which events an instance waits, where levels are read.
ghost use Rattle.std.specs.Prelude.{◌<◌, ◌↔◌, IsTrue, IfOk, IfSome, IfNone, length};
ghost use Rattle.crs_instance.specs.Instances.{IsOf};
ghost use Rattle.crs_model.specs.Partial.{IsAwaited};
ghost use Rattle.crs_model.specs.Plans.{IsProper};
ghost use Rattle.crs_focus.specs.PlanLevels.{levels_in, IsLastOf, IsLevelAbove, IsNoLevelAbove, AreAwaited};

use crate::level::{current_level, level_of};
use crs_instance::Instance;
use crs_model::Plan;
use std::alloc::{AllocError, Global};

/// Whether the event is unbound, and none of a lower level is.
pub fn is_awaited(plan: &Plan, focus: bool, instance: &Instance, event: u8) -> bool
    requires proper { IsProper plan.now }
    requires of { IsOf plan.now instance.now }
    requires event { event < length plan.now.chronicle.events }
    ensures { IsTrue result ↔ IsAwaited (levels_in plan.now focus) instance.now.partial event }
{
    if instance.is_bound(event) {
        return false;
    }
    if !focus {
        return true;
    }
    current_level(plan, instance.bound(), focus) == Some(level_of(plan, event, focus))
}

/// The last date at which each awaited event can still come, where there is one.
pub fn last_date(plan: &Plan, focus: bool, instance: &Instance) -> Option<i64>
    requires proper { IsProper plan.now }
    requires of { IsOf plan.now instance.now }
    ensures { IsLastOf plan.now focus instance.now result }
{
    if instance.is_whole() {
        return None;
    }
    if !focus {
        return instance.deadline(plan, 0, focus);
    }
    match current_level(plan, instance.bound(), focus) {
        None => None,
        Some(level) => instance.deadline(plan, level, focus),
    }
}

/// The level of the awaited events, where that is above the level.
pub fn next_level(plan: &Plan, focus: bool, instance: &Instance, level: u8) -> Option<u8>
    requires proper { IsProper plan.now }
    requires of { IsOf plan.now instance.now }
    ensures some { IfSome result (IsLevelAbove (levels_in plan.now focus) instance.now.partial level) }
    ensures none { IfNone result (IsNoLevelAbove (levels_in plan.now focus) instance.now.partial level) }
{
    match current_level(plan, instance.bound(), focus) {
        Some(next) if next > level => Some(next),
        _ => None,
    }
}

/// The awaited events, in ascending order.
pub fn awaited_events(
    alloc: Global,
    plan: &Plan,
    focus: bool,
    instance: &Instance,
) -> Result<Vec<u8>, AllocError>
    requires proper { IsProper plan.now }
    requires of { IsOf plan.now instance.now }
    ensures { IfOk result (λ v. AreAwaited (levels_in plan.now focus) instance.now.partial (length plan.now.chronicle.events) v.items) }
{
    let mut events = Vec::new(alloc);
    for event in 0..plan.chronicle.events.len() as u8 {
        if is_awaited(plan, focus, instance, event) {
            events.push(event)?;
        }
    }
    Ok(events)
}
