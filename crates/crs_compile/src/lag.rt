ghost use Rattle.std.specs.Prelude.{◌≡◌, ◌⊎◌, ℕ, ◌<◌, ◌≤◌, length, map, zip, true, false, None, IfErr, OnOk};
ghost use Rattle.std.specs.List.{AllByRecursion};
ghost use Rattle.crs_stn.specs.Table.{most_of};
ghost use Rattle.crs_base.specs.Words.{IsIn};
ghost use Rattle.crs_compile.specs.Compiled.{IsSlowLine, IsLagRefusal, plans_in};
ghost use Rattle.crs_model.specs.ShortLags.{AreSlow, first_lags, HaveShortLags};
ghost use Rattle.crs_model.specs.Hierarchy.{IsGreatest, AreInOrder, end_span, IsEndSpan, IsEmitSpan, IsLag, IsLagOf};
ghost use Rattle.crs_model.specs.Plans.{chronicle};
ghost use Rattle.crs_model.specs.ProperModels.{IsProperAnchor};
ghost use Rattle.crs_model.specs.Reach.{IsLongest, IsZero, IsSmallSpan};
ghost use Rattle.crs_model.specs.SeenModels.{anchor_of, window_of, emit_of, chronicle_of};

use crate::reach::{furthest, longer};
use crs_model::limits::TICK_LIMIT;
use crs_model::{
    Anchor, Chronicle, Emit, ModelRefused, ModelWord, Plan, Window, lag_below, strata_of,
};
use crs_stn::Network;
use std::alloc::Global;
use std::rc::Rc;

/// The most that the last date of a window can lie behind an event: `most(p, b) + y - 1` for its end
/// `b + y`.
fn end_span(network: &Network, event: u8, to: Anchor) -> Option<i64>
    requires event { event < network.now.points }
    requires to { IsProperAnchor network.now.points (anchor_of to) }
    ensures value { result ≡ end_span (most_of network.now) event (anchor_of to) }
    ensures small { IsSmallSpan result }
{
    let most = network.most(event, to.event)?;
    Some(most + to.offset - 1)
}

/// The longest of 0 and of the spans from an event to the last date of each window.
fn furthest_end(network: &Network, windows: &[Window], event: u8) -> Option<i64>
    requires event { event < network.now.points }
    requires windows { AllByRecursion (λ w. IsProperAnchor network.now.points w.to) (map window_of windows.now) }
    ensures longest { IsLongest (λ s. IsZero s ⊎ IsEndSpan (most_of network.now) (map (λ w. w.to) (map window_of windows.now)) event s) result }
    ensures small { IsSmallSpan result }
{
    match windows.split_first() {
        None => Some(0),
        Some((window, rest)) => longer(
            end_span(network, event, window.to),
            furthest_end(network, rest, event),
        ),
    }
}

/// The longest of 0 and of the spans from an event to each event, and to the last date of each window.
fn lag_at(network: &Network, windows: &[Window], events: u8, event: u8) -> Option<i64>
    requires event { event < events }
    requires events { events ≤ network.now.points }
    requires windows { AllByRecursion (λ w. IsProperAnchor network.now.points w.to) (map window_of windows.now) }
    ensures longest { IsLongest (λ s. IsZero s ⊎ IsEmitSpan events (most_of network.now) (map (λ w. w.to) (map window_of windows.now)) event s) result }
    ensures small { IsSmallSpan result }
{
    let from = Anchor { event, offset: 0 };
    longer(
        furthest(network, from, events),
        furthest_end(network, windows, event),
    )
}

/// The longest of 0 and of the lags of emits.
fn longest_lag(network: &Network, windows: &[Window], events: u8, emits: &[Emit]) -> Option<i64>
    requires events { events ≤ network.now.points }
    requires windows { AllByRecursion (λ w. IsProperAnchor network.now.points w.to) (map window_of windows.now) }
    requires emits { AllByRecursion (λ e. e.event < events) (map emit_of emits.now) }
    ensures longest { IsLag events (most_of network.now) (map (λ w. w.to) (map window_of windows.now)) (map (λ e. e.event) (map emit_of emits.now)) result }
    ensures small { IsSmallSpan result }
{
    match emits.split_first() {
        None => Some(0),
        Some((emit, rest)) => longer(
            lag_at(network, windows, events, emit.event),
            longest_lag(network, windows, events, rest),
        ),
    }
}

/// The lag of a chronicle: how long after the date of an emitted entry its recognition can come.
pub(crate) fn lag_of(network: &Network, chronicle: &Chronicle) -> Option<i64>
    requires few { length chronicle.now.events ≤ 16 }
    requires events { length chronicle.now.events ≤ network.now.points }
    requires windows { AllByRecursion (λ w. IsProperAnchor network.now.points w.to) (map window_of chronicle.now.windows) }
    requires emits { AllByRecursion (λ e. e.event < length chronicle.now.events) (map emit_of chronicle.now.emits) }
    ensures lag { IsLagOf (chronicle_of chronicle.now) (most_of network.now) result }
    ensures small { IsSmallSpan result }
{
    let events = chronicle.events.len() as u8;
    longest_lag(
        network,
        chronicle.windows.as_slice(),
        events,
        chronicle.emits.as_slice(),
    )
}

/// Whether some chronicle's lag is infinite.
fn is_some_infinite(plans: &[Rc<Plan>]) -> bool
    ensures yes { result ≡ true → IsIn None (map (λ r. r.value.lag) plans.now) }
    ensures no { result ≡ false → IsIn None (map (λ r. r.value.lag) plans.now) → ⊥ }
{
    match plans.split_first() {
        None => false,
        Some((plan, rest)) => {
            if plan.lag.is_none() {
                return true;
            }
            is_some_infinite(rest)
        }
    }
}

/// The greatest stratum, and 0 where there is none.
fn top_of(strata: &[u8]) -> u8
    ensures { IsGreatest (λ k. (k ≡ 0) ⊎ IsIn k strata.now) result }
{
    match strata.split_first() {
        None => 0,
        Some((stratum, rest)) => top_of(rest).max(*stratum),
    }
}

/// Whether these chronicles' lags are too long: one is infinite, or they sum up to more than the limit
/// of ticks over their strata.
fn are_slow(plans: &[Rc<Plan>], strata: &[u8]) -> bool
    requires small { AllByRecursion (λ r. IsSmallSpan r.value.lag) plans.now }
    requires few { AllByRecursion (λ k. k < 64) strata.now }
    requires each { length strata.now ≡ length plans.now }
    ensures yes { result ≡ true → AreSlow (zip strata.now (map (λ r. r.value.lag) plans.now)) }
    ensures no { result ≡ false → AreSlow (zip strata.now (map (λ r. r.value.lag) plans.now)) → ⊥ }
{
    if is_some_infinite(plans) {
        return true;
    }
    TICK_LIMIT < lag_below(plans, strata, top_of(strata) + 1)
}

/// The closing line of the first chronicle with which the lags are too long. With these first ones they
/// aren't.
fn slow_from(plans: &[Rc<Plan>], strata: &[u8], fast: usize) -> Option<u32>
    requires small { AllByRecursion (λ r. IsSmallSpan r.value.lag) plans.now }
    requires few { AllByRecursion (λ k. k < 64) strata.now }
    requires each { length strata.now ≡ length plans.now }
    requires within { fast ≤ length plans.now }
    requires fast { (k : ℕ) → k ≤ fast → AreSlow (first_lags k (plans_in plans.now) strata.now) → ⊥ }
    ensures { IsSlowLine (plans_in plans.now) strata.now result }
{
    if fast == plans.len() {
        return None;
    }
    if are_slow(&plans[..fast + 1], &strata[..fast + 1]) {
        return Some(plans[fast].chronicle.line);
    }
    slow_from(plans, strata, fast + 1)
}

/// The closing line of the first chronicle with which the lags are too long.
fn slow_line(plans: &[Rc<Plan>], strata: &[u8]) -> Option<u32>
    requires small { AllByRecursion (λ r. IsSmallSpan r.value.lag) plans.now }
    requires few { AllByRecursion (λ k. k < 64) strata.now }
    requires each { length strata.now ≡ length plans.now }
    ensures { IsSlowLine (plans_in plans.now) strata.now result }
{
    slow_from(plans, strata, 0)
}

/// Refuses plans whose lags are too long.
pub(crate) fn test_lags(alloc: Global, plans: &[Rc<Plan>]) -> Result<(), ModelRefused>
    requires small { AllByRecursion (λ r. IsSmallSpan r.value.lag) plans.now }
    requires few { length plans.now ≤ 64 }
    requires in_order { AreInOrder (map (λ r. chronicle r.value) plans.now) }
    ensures short { OnOk result (HaveShortLags (plans_in plans.now)) }
    ensures refused { IfErr result (IsLagRefusal (plans_in plans.now)) }
{
    let strata = strata_of(alloc, plans)?;
    match slow_line(plans, strata.as_slice()) {
        Some(line) => Err(ModelRefused::At {
            line,
            word: ModelWord::Lag,
        }),
        None => Ok(()),
    }
}
