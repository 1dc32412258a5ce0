//! Which events come before others, so that an instance needn't wait for an event before another is bound.
ghost use Rattle.std.specs.Prelude.{◌≡◌, ◌<◌, ◌↔◌, length, true, IfSome, IsTrue};
ghost use Rattle.crs_model.specs.Plans.{IsProper};
ghost use Rattle.crs_waiting.specs.Orders.{rank_of, IsRankedBefore, IsBeforeAt, ComesFirst, IsUnboundBefore};

use crate::hooks::Hook;
use crs_base::Sym;
use crs_focus::level_of;
use crs_instance::Instance;
use crs_model::Plan;

/// The rank of the name, which is 0 where none is told.
pub fn rank_of(ranks: &[u32], name: Sym) -> u32
    ensures { result ≡ rank_of ranks.now name }
{
    match ranks.get(name.0 as usize) {
        Some(rank) => *rank,
        None => 0,
    }
}

/// Whether the name of the event `other` has a lesser rank than that of the event.
fn is_ranked_before(plan: &Plan, ranks: &[u32], other: u8, event: u8) -> bool
    requires other { other < length plan.now.chronicle.events }
    requires event { event < length plan.now.chronicle.events }
    ensures { result ≡ true → IsRankedBefore plan.now ranks.now other event }
{
    let events = plan.chronicle.events.as_slice();
    let first = events[other as usize].pattern.name;
    let second = events[event as usize].pattern.name;
    rank_of(ranks, first) < rank_of(ranks, second)
}

/// Whether the event `other` comes before the event: it is of the same level, and by the bounds it is
/// earlier, or no later where its name has a lesser rank.
fn comes_first(plan: &Plan, focus: bool, ranks: &[u32], other: u8, event: u8) -> bool
    requires proper { IsProper plan.now }
    requires other { other < length plan.now.chronicle.events }
    requires event { event < length plan.now.chronicle.events }
    ensures { result ≡ true → ComesFirst plan.now focus ranks.now other event }
{
    if other == event {
        return false;
    }
    if level_of(plan, other, focus) != level_of(plan, event, focus) {
        return false;
    }
    match plan.network.most(event, other) {
        None => false,
        Some(most) => most < 0 || (most == 0 && is_ranked_before(plan, ranks, other, event)),
    }
}

/// How far the event `other` is from the event behind it, at least and at most.
fn distance(plan: &Plan, other: u8, event: u8) -> (i64, i64)
    requires proper { IsProper plan.now }
    requires other { other < length plan.now.chronicle.events }
    requires event { event < length plan.now.chronicle.events }
{
    let least = match plan.network.most(event, other) {
        None => i64::MIN,
        Some(most) => -most,
    };
    let most = match plan.network.most(other, event) {
        None => i64::MAX,
        Some(most) => most,
    };
    (least, most)
}

/// Whether the event `other` is no further from the event than the one that was found before.
fn is_nearer(plan: &Plan, found: Option<u8>, other: u8, event: u8) -> bool
    requires proper { IsProper plan.now }
    requires found { IfSome found (λ f. f < length plan.now.chronicle.events) }
    requires other { other < length plan.now.chronicle.events }
    requires event { event < length plan.now.chronicle.events }
{
    match found {
        None => true,
        Some(found) => distance(plan, other, event) <= distance(plan, found, event),
    }
}

/// An event that comes before the event, the nearest one, where entries come by their dates and, at one
/// date, by the ranks of their names; none where that isn't told. Entries of a prompt chronicle come in
/// any order. An instance that waits for the nearest alone waits for one event of a chain of eight in
/// place of eight: it takes a sixth off the drill.
pub(crate) fn before_of(
    plan: &Plan,
    focus: bool,
    ranks: &[u32],
    told: bool,
    event: u8,
) -> Option<u8>
    requires proper { IsProper plan.now }
    requires event { event < length plan.now.chronicle.events }
    ensures { IfSome result (IsBeforeAt plan.now focus ranks.now event) }
{
    if !told || plan.chronicle.prompt {
        return None;
    }
    let mut found = None;
    for other in 0..plan.chronicle.events.len() as u8 {
        if comes_first(plan, focus, ranks, other, event) && is_nearer(plan, found, other, event) {
            found = Some(other);
        }
    }
    found
}

/// Whether the event that the hook names is unbound.
#[inline(always)]
pub fn is_held_back(hook: &Hook, instance: &Instance) -> bool
    requires { IfSome hook.now.before (λ f. f < length instance.now.partial) }
    ensures { IsTrue result ↔ IsUnboundBefore hook.now instance.now.partial }
{
    match hook.before {
        None => false,
        Some(before) => !instance.is_bound(before),
    }
}
