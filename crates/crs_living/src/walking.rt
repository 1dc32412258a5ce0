//! Instances at some places are followed or passed.
ghost use Rattle.std.specs.Prelude.{◌≡◌, Some};
ghost use Rattle.std.specs.List.Sorted.{IsStrictlySortedBy};
ghost use Rattle.std.specs.Ordering.{nat_cmp};
ghost use Rattle.crs_base.specs.Seen.{entry_of};
ghost use Rattle.crs_instance.specs.Instances.{IsOf};
ghost use Rattle.crs_living.specs.Slots.{slot_at};
ghost use Rattle.crs_living.specs.PlaceWalks.{Walks};
ghost use Rattle.crs_living.specs.Judgings.{IsPassing, IsAbleBy, IsPassedBy, IsFollowedBy};

use crate::judging::Passing;
use crate::slots::Slots;
use crs_base::Entry;

/// Settles the entry in the windows of what stands in the places, and passes the dates up to its
/// date. What can't be recognised any more then goes.
pub fn follow_places(passing: &Passing<'_>, slots: &mut Slots, places: &[u32], entry: &Entry)
    requires passing { IsPassing passing.now }
    requires of { (p : _) (i : _) → slot_at slots.old p ≡ Some i → IsOf passing.now.judging.plan.now i }
    requires at { passing.now.judging.h ≡ entry.now.date }
    requires ordered { IsStrictlySortedBy nat_cmp places.now }
    ensures { Walks (IsFollowedBy passing.now (entry_of entry.now)) (IsAbleBy passing.now.judging) places.now slots.old slots.new }
{
    for place in places {
        slots.follow_at(passing, *place, entry);
    }
}

/// Passes the dates in the windows of what stands in the places. What can't be recognised any more
/// then goes.
pub fn pass_places(passing: &Passing<'_>, slots: &mut Slots, places: &[u32])
    requires passing { IsPassing passing.now }
    requires of { (p : _) (i : _) → slot_at slots.old p ≡ Some i → IsOf passing.now.judging.plan.now i }
    requires ordered { IsStrictlySortedBy nat_cmp places.now }
    ensures { Walks (IsPassedBy passing.now) (IsAbleBy passing.now.judging) places.now slots.old slots.new }
{
    for place in places {
        slots.pass_at(passing, *place);
    }
}
