ghost use Rattle.std.specs.Prelude.{◌≡◌, ◌-◌, ◌^◌, map, min, sum, length};

use crs_store::Store;

/// How many instances the stores hold, or 2^64 - 1 where there are more.
pub(crate) fn kept_by(stores: &[Store]) -> u64
    ensures { result ≡ min (sum (map (λ s. length s.held) stores.now)) (2 ^ 64 - 1) }
{
    match stores.split_first() {
        None => 0,
        Some((first, rest)) => (first.held() as u64).saturating_add(kept_by(rest)),
    }
}
