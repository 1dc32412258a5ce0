ghost use Rattle.std.specs.Prelude.{◌≡◌};
ghost use Rattle.std.specs.Iterator.{YieldsFirst, item_count};
ghost use Rattle.crs_watch.specs.Watching.{has_date, pairs_at};

use crs_history::to_date;
use crs_model::Stretch;
use std::collections::btree_map::Range;
use std::marker::Model;

/// The armed pairs of a name whose stretch has a date, by id and then by window, seen as the list
/// of those that are left. To go on takes no memory.
#[derive(Drop)]
pub struct Touched<'a, K> {
    range: Range<'a, (K, u64, u8), Stretch>,
    date: u64,
}

impl<'a, K> Model for Touched<'a, K> {
    ghost use Rattle.std.specs.Prelude.{List, ℕ};
    ghost use Rattle.crs_watch.specs.Watching.{pairs_at};

    ghost Value = { List (ℕ × ℕ) };

    ghost view = { λ t. pairs_at t.date t.range };
}

/// Whether the date is in the stretch.
fn has_date(stretch: Stretch, date: u64) -> bool
    ensures { result ≡ has_date date stretch }
{
    to_date(stretch.from) <= date && date < to_date(stretch.to)
}

impl<'a, K> Touched<'a, K> {
    /// Those of the range whose stretch has the date.
    pub(crate) fn new(range: Range<'a, (K, u64, u8), Stretch>, date: u64) -> Touched<'a, K>
        ensures { result ≡ pairs_at date range.entry }
    {
        Touched { range, date }
    }
}

impl<'a, K> Iterator for Touched<'a, K> {
    type Item = (u64, u8);

    ghost next_gives = { YieldsFirst (λ rest. rest) };

    ghost remaining = { item_count (λ rest. rest) };

    fn next(&mut self) -> Option<(u64, u8)> {
        while let Some((key, stretch)) = self.range.next() {
            if has_date(*stretch, self.date) {
                return Some((key.1, key.2));
            }
        }
        None
    }
}
