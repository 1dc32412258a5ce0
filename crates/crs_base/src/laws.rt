ghost use Rattle.std.specs.Prelude.{◌≡◌};
ghost use Rattle.std.specs.Cmp.{IsTotalOrder};
ghost use Rattle.std.specs.declared.cmp.Ordering.TheVariants.{Equal};
ghost use Rattle.crs_base.specs.Entry.{Key, key_cmp};

/// The key order of entries is total, and two keys that tie are equal.
pub fn key_order_is_total()
    ensures total { IsTotalOrder key_cmp }
    ensures exact { (j k : Key) → key_cmp j k ≡ Equal → j ≡ k }
{}
