ghost use Rattle.std.specs.Prelude.{◌≡◌, ℕ, ◌/◌, ◌%◌, ◌≤◌, ◌<◌, ◌^◌, List, [], ◌∷◌, ◌++◌, OnOk, OnErr, length, drop, slice_index_or, slice_set, map};
ghost use Rattle.std.specs.List.{filter};
ghost use Rattle.crs_agenda.specs.Freshness.{is_fresh_pair};
ghost use Rattle.std.specs.Bool.{OnTrue};
ghost use Rattle.std.specs.List.Sorted.{IsPermutation};
ghost use Rattle.crs_agenda.specs.Places.{Stands, InPlace, AreEmptyBefore, GoBefore, AreIn, IsEarliest, pairs_of};

use crate::bucket::Bucket;
use crate::timed::Timed;
use std::alloc::{AllocError, Global};
use std::mem;

/// How many buckets a row has.
const BUCKETS: u64 = 32;

/// The bucket of a date: the row of the highest digit in which it differs from the base, and its
/// digit there.
pub fn bucket_of(base: u64, date: u64) -> usize
    requires from { base ≤ date }
    requires bound { date < 2 ^ 45 }
    ensures { Stands base result date }
{
    let mut row: u64 = 0;
    let mut here = base;
    let mut there = date;
    while here / BUCKETS != there / BUCKETS {
        here = here / BUCKETS;
        there = there / BUCKETS;
        row += 1;
    }
    (row * BUCKETS + there % BUCKETS) as usize
}

/// A bucket before which there are no pairs, where none is dated before `wait`.
pub fn start_of(base: u64, wait: u64) -> usize
    requires { base ≤ wait }
    ensures row { result ≤ 32 }
    ensures here { wait / 32 ≡ base / 32 → result ≡ wait % 32 }
{
    if wait / BUCKETS == base / BUCKETS {
        (wait % BUCKETS) as usize
    } else {
        32
    }
}

/// The first bucket from this one on that has a pair, or how many buckets there are.
pub fn first_full(buckets: &[Bucket], from: usize) -> usize
    requires { AreEmptyBefore from buckets.now }
    ensures within { result ≤ length buckets.now }
    ensures before { AreEmptyBefore result buckets.now }
    ensures full { result < length buckets.now → 0 < length (slice_index_or buckets.now result []) }
{
    let mut at = from.min(buckets.len());
    while at < buckets.len() {
        if buckets[at].len() != 0 {
            return at;
        }
        at += 1;
    }
    at
}

/// Opens the buckets up to this one.
pub fn open_to(buckets: &mut Vec<Bucket>, at: usize, alloc: Global) -> Result<(), AllocError>
    ensures open { OnOk result (at < length buckets.new.items) }
    ensures pairs { pairs_of buckets.new.items ≡ pairs_of buckets.old.items }
    ensures same { (c : ℕ) → slice_index_or buckets.new.items c [] ≡ slice_index_or buckets.old.items c [] }
{
    while buckets.len() <= at {
        match buckets.push(Bucket::new(alloc)) {
            Ok(()) => {}
            Err(_) => return Err(AllocError),
        }
    }
    Ok(())
}

/// Puts a pair at the end of a bucket.
pub fn put_at(buckets: &mut [Bucket], at: usize, timed: Timed) -> Result<(), AllocError>
    requires { at < length buckets.old }
    ensures ok { OnOk result (buckets.new ≡ slice_set buckets.old at (slice_index_or buckets.old at [] ++ timed ∷ [])) }
    ensures err { OnErr result (buckets.new ≡ buckets.old) }
{
    buckets[at].push(timed)
}

/// Takes a bucket's pairs out.
fn take_bucket(buckets: &mut [Bucket], at: usize, alloc: Global) -> Bucket
    requires { at < length buckets.old }
    ensures pairs { result ≡ slice_index_or buckets.old at [] }
    ensures rest { buckets.new ≡ slice_set buckets.old at [] }
{
    mem::replace(&mut buckets[at], Bucket::new(alloc))
}

/// Empties the buckets before this one.
fn clear_before(buckets: &mut [Bucket], end: usize)
    requires { end ≤ length buckets.old }
    ensures empty { AreEmptyBefore end buckets.new }
    ensures rest { drop end buckets.new ≡ drop end buckets.old }
    ensures len { length buckets.new ≡ length buckets.old }
{
    for i in 0..end {
        buckets[i].clear();
    }
}

/// Copies the pairs of a bucket into earlier ones, and says whether there was memory for all.
fn spread(buckets: &mut [Bucket], base: u64, end: usize, source: &Bucket) -> bool
    requires within { end ≤ length buckets.old }
    requires in_place { InPlace base buckets.old }
    requires before { GoBefore base end source.now }
    ensures all { OnTrue result (IsPermutation (source.now ++ pairs_of buckets.old) (pairs_of buckets.new)) }
    ensures in_place { InPlace base buckets.new }
    ensures rest { drop end buckets.new ≡ drop end buckets.old }
    ensures len { length buckets.new ≡ length buckets.old }
{
    for i in 0..source.len() {
        let timed = source.get(i);
        let to = bucket_of(base, timed.date);
        match put_at(buckets, to, timed) {
            Ok(()) => {}
            Err(_) => return false,
        }
    }
    true
}

/// Where the earliest pair of a bucket is. In the first row all dates of a bucket are the same.
pub fn earliest(bucket: &Bucket, at: usize) -> usize
    requires some { 0 < length bucket.now }
    requires in_place { (base : ℕ) × AreIn base at bucket.now }
    ensures { IsEarliest result bucket.now }
{
    if at < 32 { 0 } else { bucket.least() }
}

/// Puts the memory of an emptied bucket back, where it isn't large.
fn put_memory_back(buckets: &mut [Bucket], at: usize, source: Bucket, alloc: Global)
    requires within { at < length buckets.old }
    requires empty { slice_index_or buckets.old at [] ≡ [] }
    ensures { buckets.new ≡ buckets.old }
{
    let mut bucket = source;
    bucket.clear();
    bucket.release(alloc);
    buckets[at] = bucket;
}

/// What was taken out of a calendar, and the base from then on.
#[derive(Clone, Copy)]
pub struct Taken {
    pub timed: Timed,
    pub base: u64,
}

/// Takes out the earliest pair of the first bucket with any, past the first row. The others go into
/// earlier buckets, from its date on, or stay where there is no memory for that.
fn turn(buckets: &mut [Bucket], base: u64, at: usize, pick: usize, alloc: Global) -> Taken
    requires within { at < length buckets.old }
    requires past { 32 ≤ at }
    requires in_place { InPlace base buckets.old }
    requires before { AreEmptyBefore at buckets.old }
    requires earliest { IsEarliest pick (slice_index_or buckets.old at []) }
    ensures rest { IsPermutation (pairs_of buckets.old) (result.timed ∷ pairs_of buckets.new) }
    ensures item { result.timed ≡ slice_index_or (slice_index_or buckets.old at []) pick result.timed }
    ensures in_place { InPlace result.base buckets.new }
    ensures base { result.base ≤ result.timed.date }
{
    let mut source = take_bucket(buckets, at, alloc);
    let timed = source.take(pick);
    if spread(buckets, timed.date, at, &source) {
        put_memory_back(buckets, at, source, alloc);
        return Taken {
            timed,
            base: timed.date,
        };
    }
    clear_before(buckets, at);
    buckets[at] = source;
    Taken { timed, base }
}

/// Takes out a pair of a bucket.
fn take_at(buckets: &mut [Bucket], at: usize, pick: usize, alloc: Global) -> Timed
    requires within { at < length buckets.old }
    requires pick { pick < length (slice_index_or buckets.old at []) }
    ensures item { result ≡ slice_index_or (slice_index_or buckets.old at []) pick result }
    ensures rest { IsPermutation (slice_index_or buckets.old at []) (result ∷ slice_index_or buckets.new at []) }
    ensures others { buckets.new ≡ slice_set buckets.old at (slice_index_or buckets.new at []) }
{
    let bucket = &mut buckets[at];
    let timed = bucket.take(pick);
    bucket.release(alloc);
    timed
}

/// Takes out the earliest pair of the first bucket with any.
pub fn take_out(buckets: &mut [Bucket], base: u64, at: usize, pick: usize, alloc: Global) -> Taken
    requires within { at < length buckets.old }
    requires in_place { InPlace base buckets.old }
    requires before { AreEmptyBefore at buckets.old }
    requires earliest { IsEarliest pick (slice_index_or buckets.old at []) }
    ensures rest { IsPermutation (pairs_of buckets.old) (result.timed ∷ pairs_of buckets.new) }
    ensures item { result.timed ≡ slice_index_or (slice_index_or buckets.old at []) pick result.timed }
    ensures in_place { InPlace result.base buckets.new }
    ensures base { result.base ≤ result.timed.date }
{
    if at >= 32 {
        return turn(buckets, base, at, pick, alloc);
    }
    let timed = take_at(buckets, at, pick, alloc);
    Taken { timed, base }
}

/// Keeps the pairs with a fresh handle, and says how many there are.
pub fn keep_fresh(buckets: &mut [Bucket], serials: &[u32], size: usize) -> usize
    requires { size ≡ length (pairs_of buckets.old) }
    ensures kept { buckets.new ≡ map (filter (is_fresh_pair serials.now)) buckets.old }
    ensures counted { result ≡ length (pairs_of buckets.new) }
{
    let mut left = size;
    for i in 0..buckets.len() {
        let bucket = &mut buckets[i];
        let before = bucket.len();
        bucket.keep_fresh(serials);
        left -= before - bucket.len();
    }
    left
}
