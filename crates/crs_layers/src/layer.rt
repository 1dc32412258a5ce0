// One stratum.
ghost use Rattle.std.specs.Prelude.{◌≡◌, ◌<◌, ◌-◌, ◌==◌, ◌^◌, length, map, min, sum};
ghost use Rattle.std.specs.List.{list_any};
ghost use Rattle.crs_engine.specs.Engines.{kept_of};

use crs_base::List;
use crs_engine::Engine;

/// A stratum.
#[derive(Drop)]
pub struct Layer {
    /// It has the plans of the stratum's chronicles.
    pub engine: Engine,
    /// The number of each of these among all chronicles, from 0.
    pub numbers: List<u32>,
    /// How many ticks its horizon lies behind that of stratum 0.
    pub behind: u64,
}

/// Whether one of the strata has accepted as many entries as may be.
#[inline]
pub(crate) fn is_some_full(layers: &[Layer]) -> bool
    ensures { result ≡ list_any (λ l. l.engine.accepted == l.engine.limit) layers.now }
{
    layers.iter().any(|layer| layer.engine.is_full())
}

/// How many instances the strata hold, or 2^64 - 1 where there are more.
pub(crate) fn kept_by(layers: &[Layer]) -> u64
    ensures { result ≡ min (sum (map (λ l. kept_of l.engine) layers.now)) (2 ^ 64 - 1) }
{
    match layers.split_first() {
        None => 0,
        Some((first, rest)) => first.engine.kept().saturating_add(kept_by(rest)),
    }
}
