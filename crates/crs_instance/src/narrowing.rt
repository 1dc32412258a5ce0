ghost use Rattle.std.specs.Prelude.{◌≡◌, ◌<◌, ◌≤◌, ◌^◌, ◌*◌, ◌↔◌, ℤ, pos, ◌≤ℤ◌, ◌+ℤ◌, length, IfOk, IfSome, IsTrue, Some, Option};
ghost use Rattle.crs_stn.specs.Table.{most_of};
ghost use Rattle.crs_stn.specs.Cycle.{lesser};
ghost use Rattle.crs_stn.specs.DateWindow.{after, greater_of, before};
ghost use Rattle.crs_instance.specs.Instances.{IsInside};
ghost use Rattle.crs_instance.specs.Spans.{start_of, end_of, window_of, windows_of};
ghost use Rattle.crs_instance.specs.Narrowed.{IsNarrowed, most_with, IsFrom};

use crate::span::{NO_LEAST, NO_MOST, Span};
use crs_stn::Network;
use std::alloc::{AllocError, Global};

/// The earlier of two greatest dates.
pub(crate) fn earlier(a: i64, b: i64) -> i64
    ensures { end_of result ≡ lesser (end_of a) (end_of b) }
{
    a.min(b)
}

/// The later of two least dates.
#[tactic(auto, using(crate::proofs::SpanSays::start_greatest))]
fn later(a: i64, b: i64) -> i64
    ensures { start_of result ≡ greater_of (start_of a) (start_of b) }
{
    a.max(b)
}

/// The date with the bound from it, where there is one.
#[tactic(auto, using(crate::proofs::SpanSays::end_some))]
fn date_after(date: u64, bound: Option<i64>) -> i64
    requires date { date < 2 ^ 40 }
    requires not_large { IfSome bound (λ b. b ≤ℤ pos (23 * 2 ^ 40)) }
    requires not_small { IfSome bound (λ b. pos 0 ≤ℤ (b +ℤ pos (23 * 2 ^ 40))) }
    ensures { end_of result ≡ after (Some (pos date)) bound }
{
    match bound {
        None => NO_MOST,
        Some(bound) => date as i64 + bound,
    }
}

/// The date less the bound to it, where there is one.
fn date_before(date: u64, bound: Option<i64>) -> i64
    requires date { date < 2 ^ 40 }
    requires not_large { IfSome bound (λ b. b ≤ℤ pos (23 * 2 ^ 40)) }
    requires not_small { IfSome bound (λ b. pos 0 ≤ℤ (b +ℤ pos (23 * 2 ^ 40))) }
    ensures { start_of result ≡ before (Some (pos date)) bound }
{
    match bound {
        None => NO_LEAST,
        Some(bound) => date as i64 - bound,
    }
}

/// Whether the date is in the span.
pub(crate) fn is_inside(span: Span, date: u64) -> bool
    requires { date < 2 ^ 40 }
    ensures { IsTrue result ↔ IsInside (window_of span) (pos date) }
{
    if span.most < date as i64 {
        return false;
    }
    span.least <= date as i64
}

/// Whether the deadline, if there is one, is not before the date.
pub(crate) fn is_not_before(deadline: i64, date: u64) -> bool
    requires { date ≤ 2 ^ 42 }
    ensures { IsTrue result ↔ IfSome (end_of deadline) (λ d. pos date ≤ℤ d) }
{
    date as i64 <= deadline
}

/// Whether the point can be at `h` or after, where an event has this date.
pub(crate) fn can_be_from(
    span: Span,
    network: &Network,
    event: u8,
    point: u8,
    date: u64,
    h: u64,
) -> bool
    requires event { event < network.now.points }
    requires point { point < network.now.points }
    requires date { date < 2 ^ 40 }
    requires horizon { h ≤ 2 ^ 42 }
    ensures { IsTrue result ↔ IsFrom (most_with (window_of span) (most_of network.now event point) date) h }
{
    if !is_not_before(span.most, h) {
        return false;
    }
    is_not_before(date_after(date, network.most(event, point)), h)
}

/// The span of a point, where an event has this date.
fn narrowed_at(span: Span, network: &Network, event: u8, point: u8, date: u64) -> Span
    requires event { event < network.now.points }
    requires point { point < network.now.points }
    requires date { date < 2 ^ 40 }
    ensures most { end_of result.most ≡ lesser (end_of span.most) (after (Some (pos date)) (most_of network.now event point)) }
    ensures least { start_of result.least ≡ greater_of (start_of span.least) (before (Some (pos date)) (most_of network.now point event)) }
{
    let from = network.most(event, point);
    let to = network.most(point, event);
    Span {
        least: later(span.least, date_before(date, to)),
        most: earlier(span.most, date_after(date, from)),
    }
}

/// The spans, where an event has this date.
pub(crate) fn narrowed(
    alloc: Global,
    spans: &[Span],
    network: &Network,
    event: u8,
    date: u64,
) -> Result<Vec<Span>, AllocError>
    requires spans { length spans.now ≡ network.now.points }
    requires few { network.now.points ≤ 24 }
    requires event { event < network.now.points }
    requires date { date < 2 ^ 40 }
    ensures { IfOk result (λ v. IsNarrowed network.now.points (most_of network.now) event (pos date) (windows_of spans.now) (windows_of v.items)) }
{
    // Room for two at least: of the allocator's smallest blocks so many are in use that they cost more.
    let mut out = Vec::with_capacity(alloc, spans.len().max(2))?;
    // A push into room that is reserved takes some 7 instructions less for each point.
    for (point, span) in spans.iter().enumerate() {
        out.push_reserved(narrowed_at(*span, network, event, point as u8, date));
    }
    Ok(out)
}
