ghost use Rattle.std.specs.Prelude.{◌≡◌, ℤ, ◌<◌, ◌≤◌, List, [], ◌∷◌, ◌++◌, length, take, slice_get};

use std::marker::Model;

/// The dates of at most 24 points by their numbers, held in place.
#[derive(Debug, Drop)]
pub struct Dates {
    dates: [i64; 24],
    len: u8,
}

// Clauses see the dates in the order of the points.
impl Model for Dates {
    ghost Value = { List ℤ };

    ghost view = { λ l. take l.len l.dates };

    ghost invariant = { λ l. l.len ≤ 24 };
}

impl Dates {
    /// How many points have a date.
    pub fn len(&self) -> u8
        ensures { result ≡ length self.now }
    {
        self.len
    }

    /// The date of a point.
    pub fn get(&self, i: u8) -> Option<i64>
        ensures { result ≡ slice_get self.now i }
    {
        if i < self.len {
            Some(self.dates[i as usize])
        } else {
            None
        }
    }

    pub(crate) fn new() -> Dates
        ensures { result ≡ [] }
    {
        Dates {
            dates: [0; 24],
            len: 0,
        }
    }

    pub(crate) fn push(&mut self, date: i64)
        requires { length self.old < 24 }
        ensures { self.new ≡ self.old ++ date ∷ [] }
    {
        self.dates[self.len as usize] = date;
        self.len += 1;
    }
}
