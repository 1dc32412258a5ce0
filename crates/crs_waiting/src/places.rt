//! Rows of places.
ghost use Rattle.std.specs.Prelude.{OnOk};
ghost use Rattle.std.specs.List.Sorted.{IsStrictlySortedBy};
ghost use Rattle.std.specs.Ordering.{nat_cmp};
ghost use Rattle.crs_base.specs.Words.{IsIn};

use std::alloc::AllocError;

/// Notes the place.
pub fn note_place(places: &mut Vec<u32>, place: u32) -> Result<(), AllocError>
    ensures noted { OnOk result (IsIn place places.new.items) }
    ensures kept { (p : _) → IsIn p places.old.items → IsIn p places.new.items }
{
    places.push(place)?;
    Ok(())
}

/// Puts the places in ascending order, each once.
#[inline(always)]
pub fn sort_places(places: &mut Vec<u32>)
    ensures kept { (p : _) → IsIn p places.old.items → IsIn p places.new.items }
    ensures ordered { IsStrictlySortedBy nat_cmp places.new.items }
{
    if places.len() < 2 {
        return;
    }
    places.sort_unstable();
    places.dedup();
}
