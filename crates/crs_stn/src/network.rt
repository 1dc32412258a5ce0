ghost use Rattle.std.specs.Prelude.{◌≡◌, ℕ, ℤ, pos, ◌+ℤ◌, ◌≤ℤ◌, ◌+◌, ◌*◌, ◌^◌, ◌<◌, ◌≤◌, length, IfSome, IfOk, IfErr, OnOk, slice_index_or};
ghost use Rattle.crs_stn.specs.declared.bound.Bound.{Bound};
ghost use Rattle.crs_stn.specs.Bound.{IsWithin, IsConsistent};
ghost use Rattle.crs_stn.specs.Network.{IsMinimal, IsGreatestBack};
ghost use Rattle.crs_stn.specs.Table.{Table, most_of, later_of, IsEarliestByBounds};

use crate::bound::Bound;
use crate::dates::Dates;
use crate::lower::Lower;
use crate::points::PointList;
use std::alloc::{AllocError, Global};
use std::marker::Model;
use thiserror::Error;

/// Why bounds have no network.
#[derive(Debug, Drop, Error)]
pub enum StnRefused {
    /// No whole dates meet the bounds. The cycle shows it: from each of its points to the next, and from the last to the first, there is a finite bound, and the least of these bounds sum to less than 0.
    #[error("Inconsistent")]
    Inconsistent { cycle: PointList },
    /// Memory ran out.
    #[error("Memory")]
    Memory,
}

impl From<PointList> for StnRefused {
    ghost use Rattle.crs_stn.specs.declared.network.StnRefused.TheVariants.{Inconsistent};

    ghost from_gives = { λ c e. e ≡ Inconsistent c };

    fn from(cycle: PointList) -> StnRefused {
        StnRefused::Inconsistent { cycle }
    }
}

impl From<AllocError> for StnRefused {
    ghost use Rattle.crs_stn.specs.declared.network.StnRefused.TheVariants.{Memory};

    ghost from_gives = { λ _ e. e ≡ Memory };

    fn from(_error: AllocError) -> StnRefused {
        StnRefused::Memory
    }
}

/// The least bounds between points, which the bounds that were closed imply.
///
/// This is the minimal network of Dechter, Meiri and Pearl 1991. It keeps no bound that it was made from.
#[derive(Drop)]
pub struct Network {
    points: u8,
    /// For each point q in turn: the earliest date of each point, where q is at 0.
    dates: Vec<Option<i64>>,
}

impl Model for Network {
    ghost use Rattle.crs_stn.specs.Table.{Table, IsTable};

    ghost Value = { Table };

    ghost view = { λ n. record { points = n.points; dates = n.dates.items } };

    ghost invariant = { λ n. IsTable n.points n.dates.items };
}

/// The later of the two dates, where there are two.
fn later(date: i64, other: Option<i64>) -> i64
    ensures { result ≡ later_of date other }
{
    match other {
        Some(other) => date.max(other),
        None => date,
    }
}

impl Network {
    ghost use Rattle.crs_stn.specs.Refused.{IsRefusedBy};

    /// The least bounds that the bounds imply.
    ///
    /// For each point in turn, with that point at 0, the earliest dates of all others are found by label correcting (Ford 1956, Bellman 1958).
    pub fn close(alloc: Global, points: u8, bounds: &[Bound]) -> Result<Network, StnRefused>
        requires few { points ≤ 24 }
        requires within { IsWithin points bounds.now }
        ensures points { IfOk result (λ network. network.points ≡ points) }
        ensures consistent { OnOk result (IsConsistent bounds.now) }
        ensures minimal { IfOk result (λ network. IsMinimal bounds.now points (most_of network)) }
        ensures refused { IfErr result (IsRefusedBy bounds.now) }
    {
        // Where all points start at 0, dates are found exactly where there are any.
        let mut all = Lower::new(alloc, points, None)?;
        all.settle(bounds)?;
        let mut dates = Vec::new(alloc);
        for q in 0..points {
            let mut lower = Lower::new(alloc, points, Some(q))?;
            lower.settle(bounds)?;
            dates.extend_from_slice(&lower.dates)?;
        }
        Ok(Network { points, dates })
    }

    /// The greatest `t_q - t_p` over all dates that meet the bounds, in ticks. None where there is no greatest.
    pub fn most(&self, p: u8, q: u8) -> Option<i64>
        requires from_below { p < self.now.points }
        requires to_below { q < self.now.points }
        ensures most { result ≡ most_of self.now p q }
        ensures not_large { IfSome result (λ b. b ≤ℤ pos (23 * 2 ^ 40)) }
        ensures not_small { IfSome result (λ b. pos 0 ≤ℤ (b +ℤ pos (23 * 2 ^ 40))) }
    {
        let date = self.dates[q as usize * self.points as usize + p as usize];
        match date {
            Some(date) => Some(-date),
            None => None,
        }
    }

    /// The greatest finite `-most(p, r)` over all points r.
    fn earliest_of(&self, p: u8) -> i64
        requires { p < self.now.points }
        ensures greatest { IsGreatestBack self.now.points (most_of self.now) p result }
        ensures few { self.now.points ≤ 24 }
    {
        // A point is 0 after itself.
        let mut earliest = 0;
        for r in 0..self.points {
            earliest = later(
                earliest,
                self.dates[r as usize * self.points as usize + p as usize],
            );
        }
        earliest
    }

    /// The least dates that meet the bounds with none negative: of each point the greatest finite `-most(p, r)` over all points r.
    pub fn earliest(&self) -> Dates
        ensures len { length result ≡ self.now.points }
        ensures greatest { (p : ℕ) → p < self.now.points → IsGreatestBack self.now.points (most_of self.now) p (slice_index_or result p (pos 0)) }
        ensures earliest { IsEarliestByBounds self.now (λ p. slice_index_or result p (pos 0)) }
    {
        let mut dates = Dates::new();
        for p in 0..self.points {
            dates.push(self.earliest_of(p));
        }
        dates
    }
}
