ghost use Rattle.std.specs.Prelude.{◌≡◌, ℕ, ◌<◌, ◌≤◌, List, [], ◌∷◌, ◌++◌, length, take, slice_get, IfSome, IfNone, All, ◌≢◌};

use std::marker::Model;

/// A list of at most 24 numbers of points, held in place.
#[derive(Debug, Drop)]
pub struct PointList {
    points: [u8; 24],
    len: u8,
}

// Clauses see the points in order.
impl Model for PointList {
    ghost Value = { List ℕ };

    ghost view = { λ l. take l.len l.points };

    ghost invariant = { λ l. l.len ≤ 24 };
}

impl PointList {
    /// How many points it has.
    pub fn len(&self) -> u8
        ensures { result ≡ length self.now }
    {
        self.len
    }

    /// The point at a place, counted from 0.
    pub fn get(&self, i: u8) -> Option<u8>
        ensures { result ≡ slice_get self.now i }
    {
        if i < self.len {
            Some(self.points[i as usize])
        } else {
            None
        }
    }

    pub(crate) fn new() -> PointList
        ensures { result ≡ [] }
    {
        PointList {
            points: [0; 24],
            len: 0,
        }
    }

    pub(crate) fn push(&mut self, point: u8)
        requires { length self.old < 24 }
        ensures { self.new ≡ self.old ++ point ∷ [] }
    {
        self.points[self.len as usize] = point;
        self.len += 1;
    }

    /// The first point, and then as many of the route.
    pub(crate) fn led_by(first: u8, route: &PointList, count: u8) -> PointList
        requires within { count ≤ length route.now }
        requires fits { count < 24 }
        ensures { result ≡ first ∷ take count route.now }
    {
        let mut list = PointList::new();
        list.push(first);
        for i in 0..count {
            list.push(route.points[i as usize]);
        }
        list
    }

    /// Where the point stands in the list.
    pub(crate) fn place(&self, point: u8) -> Option<u8>
        ensures absent { IfNone result (All (λ p. p ≢ point) self.now) }
        ensures found { IfSome result (λ k. slice_get self.now k ≡ Some point) }
        ensures within { IfSome result (λ k. k < length self.now) }
        ensures small { length self.now ≤ 24 }
    {
        for i in 0..self.len {
            if self.points[i as usize] == point {
                return Some(i);
            }
        }
        None
    }
}
