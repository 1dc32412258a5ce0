ghost use Rattle.std.specs.Prelude.{◌≡◌, ◌⊎◌, ◌<◌, ◌≤◌, List, length, map, Some};
ghost use Rattle.std.specs.List.{AllByRecursion};
ghost use Rattle.crs_stn.specs.Table.{most_of};
ghost use Rattle.crs_model.specs.SeenModels.{anchor_of, window_of, chronicle_of};
ghost use Rattle.crs_model.specs.ProperModels.{IsProperAnchor};
ghost use Rattle.crs_model.specs.Reach.{IsLongest, IsZero, span_of, IsSpanFrom, IsPairSpan, IsStartSpan, IsReachOf, IsReachOfAll, IsSmallSpan};
ghost use Rattle.crs_compile.specs.Compiled.{plans_in};

use crs_model::{Anchor, Chronicle, Plan, Window};
use crs_stn::Network;
use std::rc::Rc;

/// The longer of two spans. None is infinite.
pub(crate) fn longer(a: Option<i64>, b: Option<i64>) -> Option<i64>
    ensures { IsLongest (λ s. (s ≡ a) ⊎ (s ≡ b)) result }
{
    match (a, b) {
        (Some(a), Some(b)) => Some(a.max(b)),
        _ => None,
    }
}

/// The most that an event's date lies behind an anchor.
fn span(network: &Network, from: Anchor, event: u8) -> Option<i64>
    requires from { IsProperAnchor network.now.points (anchor_of from) }
    requires event { event < network.now.points }
    ensures value { result ≡ span_of (most_of network.now) (anchor_of from) event }
    ensures small { IsSmallSpan result }
{
    let most = network.most(from.event, event)?;
    Some(most - from.offset)
}

/// The longest of 0 and of the spans from an anchor to each event.
pub(crate) fn furthest(network: &Network, from: Anchor, events: u8) -> Option<i64>
    requires from { IsProperAnchor events (anchor_of from) }
    requires events { events ≤ network.now.points }
    ensures longest { IsLongest (λ s. IsZero s ⊎ IsSpanFrom events (most_of network.now) (anchor_of from) s) result }
    ensures small { IsSmallSpan result }
{
    let mut reach = Some(0);
    for event in 0..events {
        reach = longer(reach, span(network, from, event));
    }
    reach
}

/// The longest of 0 and of the spans from each event to each.
fn event_reach(network: &Network, events: u8) -> Option<i64>
    requires { events ≤ network.now.points }
    ensures longest { IsLongest (λ s. IsZero s ⊎ IsPairSpan events events (most_of network.now) s) result }
    ensures small { IsSmallSpan result }
{
    let mut reach = Some(0);
    for event in 0..events {
        let from = Anchor { event, offset: 0 };
        reach = longer(reach, furthest(network, from, events));
    }
    reach
}

/// The longest of 0 and of the spans from each window's start to each event.
fn window_reach(network: &Network, windows: &[Window], events: u8) -> Option<i64>
    requires windows { AllByRecursion (λ w. IsProperAnchor events w.from) (map window_of windows.now) }
    requires events { events ≤ network.now.points }
    ensures longest { IsLongest (λ s. IsZero s ⊎ IsStartSpan events (most_of network.now) (map (λ w. w.from) (map window_of windows.now)) s) result }
    ensures small { IsSmallSpan result }
{
    match windows.split_first() {
        None => Some(0),
        Some((window, rest)) => longer(
            furthest(network, window.from, events),
            window_reach(network, rest, events),
        ),
    }
}

/// The reach of a chronicle: how long after an event, or the start of a window, an event can come.
pub(crate) fn reach_of(network: &Network, chronicle: &Chronicle) -> Option<i64>
    requires few { length chronicle.now.events ≤ 16 }
    requires events { length chronicle.now.events ≤ network.now.points }
    requires windows { AllByRecursion (λ w. IsProperAnchor (length chronicle.now.events) w.from) (map window_of chronicle.now.windows) }
    ensures reach { IsReachOf (chronicle_of chronicle.now) (most_of network.now) result }
    ensures small { IsSmallSpan result }
{
    let events = chronicle.events.len() as u8;
    longer(
        event_reach(network, events),
        window_reach(network, chronicle.windows.as_slice(), events),
    )
}

/// The longest of 0 and of the plans' reaches.
pub(crate) fn reach_of_all(plans: &[Rc<Plan>]) -> Option<i64>
    ensures { IsReachOfAll (map (λ p. p.reach) (plans_in plans.now)) result }
{
    match plans.split_first() {
        None => Some(0),
        Some((plan, rest)) => longer(plan.reach, reach_of_all(rest)),
    }
}
