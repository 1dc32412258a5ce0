ghost use Rattle.std.specs.Prelude.{◌≡◌, ◌≤◌, ◌<◌, ◌^◌, List, [], ◌∷◌, OnOk, OnErr, IfSome, IfNone, All, length, false};
ghost use Rattle.std.specs.List.{filter};
ghost use Rattle.crs_agenda.specs.Freshness.{is_fresh_pair};
ghost use Rattle.std.specs.List.Sorted.{IsPermutation};

use crate::bucket::Bucket;
use crate::rows::{
    bucket_of, earliest, first_full, keep_fresh, open_to, put_at, start_of, take_out,
};
use crate::timed::{Handle, Timed};
use std::alloc::{AllocError, Global};
use std::marker::Model;

/// No pair is dated at or after it.
const FAR: u64 = 1 << 45;

/// Handles by date, of which one of the least date is taken out, and none is put in before a date
/// at which the calendar stood: a radix heap (Ahuja, Mehlhorn, Orlin and Tarjan, 1990).
///
/// A date is written in digits to the base 32. A pair stands in the row of the highest digit in
/// which its date differs from the base (row 0 if it doesn't), in the bucket of its digit there.
#[derive(Drop)]
pub struct Calendar {
    /// The buckets of all rows, 32 a row.
    buckets: Vec<Bucket>,
    /// The date from which rows and digits are told.
    base: u64,
    /// The date at which the calendar stands.
    stands: u64,
    /// No pair has an earlier date.
    wait: u64,
    size: usize,
    alloc: Global,
}

impl Model for Calendar {
    ghost use Rattle.crs_agenda.specs.Schedule.{Schedule};

    ghost Value = { Schedule };

    ghost use Rattle.crs_agenda.specs.Places.{pairs_of};
    ghost use Rattle.crs_agenda.specs.Calendars.{IsCalendar};

    ghost view = { λ c. record { pairs = pairs_of c.buckets.items; date = c.stands } };

    ghost invariant = { λ c. IsCalendar c.base c.stands c.wait c.size c.buckets.items };
}

impl Calendar {
    /// A calendar without pairs, which stands at 0 and takes no memory.
    pub fn new(alloc: Global) -> Calendar
        ensures pairs { result.pairs ≡ [] }
        ensures stood { result.date ≡ 0 }
    {
        Calendar {
            buckets: Vec::new(alloc),
            base: 0,
            stands: 0,
            wait: 0,
            size: 0,
            alloc,
        }
    }

    /// How many pairs there are.
    pub fn len(&self) -> usize
        ensures { result ≡ length self.now.pairs }
    {
        self.size
    }

    /// Puts a pair in, at a date that isn't before the one at which the calendar stands. The handle
    /// may be there already: then it is there twice.
    pub fn put(&mut self, date: u64, handle: Handle) -> Result<(), AllocError>
        requires since { self.old.date ≤ date }
        requires bound { date < 2 ^ 45 }
        ensures pairs { OnOk result (IsPermutation (record { date = date; handle = handle } ∷ self.old.pairs) self.new.pairs) }
        ensures stood { self.new.date ≡ self.old.date }
        ensures err { OnErr result (self.new ≡ self.old) }
    {
        if self.size == usize::MAX {
            return Err(AllocError);
        }
        let at = bucket_of(self.base, date);
        open_to(&mut self.buckets, at, self.alloc)?;
        put_at(self.buckets.as_mut_slice(), at, Timed { date, handle })?;
        self.size += 1;
        self.wait = self.wait.min(date);
        Ok(())
    }

    /// Whether a pair may be dated before h. It costs a comparison: true may be said where none is, and
    /// `due` then tells.
    #[inline(always)]
    pub fn may_be_due(&self, h: u64) -> bool
        ensures { result ≡ false → All (λ t. h ≤ t.date) self.now.pairs }
    {
        self.wait < h
    }

    /// Takes out a pair of the least date, where that is before h. Mostly nothing is due: that is seen
    /// where the call stands, which takes 1 % off the drill.
    #[inline(always)]
    pub fn due(&mut self, h: u64) -> Option<Timed>
        requires { self.old.date ≤ h }
        ensures rest { IfSome result (λ t. IsPermutation self.old.pairs (t ∷ self.new.pairs)) }
        ensures date { IfSome result (λ t. t.date < h) }
        ensures least { IfSome result (λ t. All (λ u. t.date ≤ u.date) self.old.pairs) }
        ensures stood { IfSome result (λ t. self.new.date ≡ t.date) }
        ensures within { self.new.date ≤ h }
        ensures none { IfNone result (All (λ t. h ≤ t.date) self.old.pairs) }
        ensures unchanged { IfNone result (self.new.pairs ≡ self.old.pairs) }
        ensures stands { IfNone result (self.new.date ≡ h) }
    {
        if h <= self.wait {
            self.stands = h;
            return None;
        }
        self.take_due(h)
    }

    /// The same, where one may be.
    fn take_due(&mut self, h: u64) -> Option<Timed>
        requires { self.old.date ≤ h }
        ensures rest { IfSome result (λ t. IsPermutation self.old.pairs (t ∷ self.new.pairs)) }
        ensures date { IfSome result (λ t. t.date < h) }
        ensures least { IfSome result (λ t. All (λ u. t.date ≤ u.date) self.old.pairs) }
        ensures stood { IfSome result (λ t. self.new.date ≡ t.date) }
        ensures within { self.new.date ≤ h }
        ensures none { IfNone result (All (λ t. h ≤ t.date) self.old.pairs) }
        ensures unchanged { IfNone result (self.new.pairs ≡ self.old.pairs) }
        ensures stands { IfNone result (self.new.date ≡ h) }
    {
        let from = start_of(self.base, self.wait);
        let at = first_full(self.buckets.as_slice(), from);
        if at == self.buckets.len() {
            // nothing is there until something is put in: the empty buckets are walked once, not at each call
            self.stands = h;
            self.wait = h.max(FAR);
            return None;
        }
        let bucket = &self.buckets[at];
        let floor = bucket.floor();
        if h <= floor {
            self.stands = h;
            self.wait = floor;
            return None;
        }
        let pick = earliest(bucket, at);
        let least = bucket.get(pick).date;
        if h <= least {
            self.stands = h;
            self.wait = least;
            return None;
        }
        let taken = take_out(self.buckets.as_mut_slice(), self.base, at, pick, self.alloc);
        self.base = taken.base;
        self.stands = taken.timed.date;
        self.wait = taken.timed.date;
        self.size -= 1;
        Some(taken.timed)
    }

    /// Drops the pairs whose handle isn't fresh, by the serial numbers of all places.
    pub fn sweep(&mut self, serials: &[u32])
        ensures pairs { self.new.pairs ≡ filter (is_fresh_pair serials.now) self.old.pairs }
        ensures stood { self.new.date ≡ self.old.date }
    {
        self.size = keep_fresh(self.buckets.as_mut_slice(), serials, self.size);
    }
}
