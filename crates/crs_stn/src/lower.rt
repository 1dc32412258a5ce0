ghost use Rattle.std.specs.Prelude.{◌≡◌, ℕ, ◌<◌, ◌≤◌, List, length, IfSome, IfNone, IfOk, IfErr, OnOk, MatchBool, All, slice_get};
ghost use Rattle.crs_stn.specs.declared.bound.Bound.{Bound};
ghost use Rattle.crs_stn.specs.Bound.{IsWithin, IsBoundBelow};
ghost use Rattle.crs_stn.specs.Cycle.{IsNegativeCycle};
ghost use Rattle.crs_stn.specs.Lower.{date_at, Held, IsLower, IsSmall, Asks, room, start_date};

use crate::bound::Bound;
use crate::points::PointList;
use std::alloc::{AllocError, Global};

/// The date that the bound asks of its first point, where that point has none as late.
fn demand(dates: &[Option<i64>], bound: &Bound) -> Option<i64>
    requires within { IsBoundBelow (length dates.now) bound.now }
    requires small { (p : ℕ) → IfSome (date_at dates.now p) IsSmall }
    ensures held { IfNone result (Held (date_at dates.now) bound.now) }
    ensures asks { IfSome result (Asks dates.now bound.now) }
{
    let most = bound.most?;
    let later = dates[bound.to as usize]?;
    let asked = later - most;
    let earlier = dates[bound.from as usize];
    match earlier {
        Some(date) if asked <= date => None,
        _ => Some(asked),
    }
}

/// Where there is a target, it alone has a date at the start.
fn start_date(target: Option<u8>, point: u8) -> Option<i64>
    ensures { result ≡ start_date target point }
{
    match target {
        Some(only) if only != point => None,
        _ => Some(0),
    }
}

/// The earliest dates that points can have by the bounds tried so far, each with the points along which it follows.
///
/// This is label correcting (Ford 1956, Bellman 1958). The routes tell a negative cycle where it first closes: by an invariant each has distinct points, so that there are finitely many dates, and each rise ends.
#[derive(Drop)]
pub(crate) struct Lower {
    pub(crate) dates: Vec<Option<i64>>,
    pub(crate) routes: Vec<PointList>,
    /// The only point that has a date at the start, or none where all have.
    pub(crate) target: Option<u8>,
}

impl Lower {
    /// Only the target, or else each point, is at 0, and nothing has moved.
    #[tactic(auto, using(crate::proofs::Start::starting))]
    pub(crate) fn new(alloc: Global, points: u8, target: Option<u8>) -> Result<Lower, AllocError>
        ensures lower { IfOk result (λ lower. (bounds : List Bound) → IsLower bounds (length lower.dates.items) lower.target lower.dates.items lower.routes.items) }
        ensures len { IfOk result (λ lower. length lower.dates.items ≡ points) }
        ensures target { IfOk result (λ lower. lower.target ≡ target) }
    {
        let mut dates = Vec::new(alloc);
        let mut routes = Vec::new(alloc);
        for p in 0..points {
            dates.push(start_date(target, p))?;
            let mut route = PointList::new();
            route.push(p);
            routes.push(route)?;
        }
        Ok(Lower {
            dates,
            routes,
            target,
        })
    }

    /// Moves the first point of the bound to the date that the bound asks. Where its route would come back to it, that is a negative cycle.
    fn raise(&mut self, bounds: &[Bound], i: usize, date: i64) -> Result<(), PointList>
        requires lower { IsLower bounds.now (length self.old.dates.items) self.old.target self.old.dates.items self.old.routes.items }
        requires within { IsWithin (length self.old.dates.items) bounds.now }
        requires few { length self.old.dates.items ≤ 24 }
        requires place { i < length bounds.now }
        requires asks { (b : Bound) → slice_get bounds.now i ≡ Some b → Asks self.old.dates.items b date }
        ensures lower { OnOk result (IsLower bounds.now (length self.old.dates.items) self.old.target self.new.dates.items self.new.routes.items) }
        ensures risen { OnOk result (room self.new.dates.items < room self.old.dates.items) }
        ensures target { self.new.target ≡ self.old.target }
        ensures cycle { IfErr result (λ cycle. IsNegativeCycle bounds.now cycle) }
    {
        let bound = bounds[i];
        let route = &self.routes[bound.to as usize];
        if let Some(place) = route.place(bound.from) {
            return Err(PointList::led_by(bound.from, route, place));
        }
        let longer = PointList::led_by(bound.from, route, route.len());
        self.routes[bound.from as usize] = longer;
        self.dates[bound.from as usize] = Some(date);
        Ok(())
    }

    /// Tries each bound once, and says whether a date has risen.
    fn round(&mut self, bounds: &[Bound]) -> Result<bool, PointList>
        requires lower { IsLower bounds.now (length self.old.dates.items) self.old.target self.old.dates.items self.old.routes.items }
        requires within { IsWithin (length self.old.dates.items) bounds.now }
        requires few { length self.old.dates.items ≤ 24 }
        ensures lower { OnOk result (IsLower bounds.now (length self.old.dates.items) self.old.target self.new.dates.items self.new.routes.items) }
        ensures target { self.new.target ≡ self.old.target }
        ensures risen { IfOk result (λ risen. MatchBool risen (room self.new.dates.items < room self.old.dates.items) (All (Held (date_at self.new.dates.items)) bounds.now)) }
        ensures cycle { IfErr result (λ cycle. IsNegativeCycle bounds.now cycle) }
    {
        let mut risen = false;
        for (i, bound) in bounds.iter().enumerate() {
            if let Some(date) = demand(&self.dates, bound) {
                self.raise(bounds, i, date)?;
                risen = true;
            }
        }
        Ok(risen)
    }

    /// Tries the bounds until each holds: the dates are then the earliest by all of them.
    pub(crate) fn settle(&mut self, bounds: &[Bound]) -> Result<(), PointList>
        requires lower { IsLower bounds.now (length self.old.dates.items) self.old.target self.old.dates.items self.old.routes.items }
        requires within { IsWithin (length self.old.dates.items) bounds.now }
        requires few { length self.old.dates.items ≤ 24 }
        ensures lower { OnOk result (IsLower bounds.now (length self.old.dates.items) self.old.target self.new.dates.items self.new.routes.items) }
        ensures target { self.new.target ≡ self.old.target }
        ensures held { OnOk result (All (Held (date_at self.new.dates.items)) bounds.now) }
        ensures cycle { IfErr result (λ cycle. IsNegativeCycle bounds.now cycle) }
    {
        while self.round(bounds)? {}
        Ok(())
    }
}
