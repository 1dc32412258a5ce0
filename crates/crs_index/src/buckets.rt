//! Numbered buckets of handles.
ghost use Rattle.std.specs.Prelude.{◌≡◌, ◌<◌, ◌⊎◌, [], ◌∷◌, ◌++◌, length, filter, map, vec_len, OnOk, OnErr, IfOk, true, slice_set};
ghost use Rattle.crs_agenda.specs.Freshness.{is_fresh};
ghost use Rattle.crs_index.specs.Indexes.{bucket_at, OpensBucket};
ghost use Rattle.crs_index.specs.Rows.{rows};

use crs_agenda::Handle;
use std::alloc::{AllocError, Global};

/// Whether the bucket with this number is there, and empty.
pub(crate) fn is_bare(buckets: &Vec<Vec<Handle>>, number: u32) -> bool
    ensures { result ≡ true → bucket_at (rows buckets.now.items) number ≡ [] }
{
    match buckets.as_slice().get(number as usize) {
        None => false,
        Some(bucket) => bucket.is_empty(),
    }
}

/// Keeps the fresh handles.
fn sift_bucket(bucket: &mut Vec<Handle>, serials: &[u32])
    ensures { bucket.new.items ≡ filter (is_fresh serials.now) bucket.old.items }
{
    bucket.retain(|handle| handle.is_fresh(serials));
}

/// Puts the handle at the end of the bucket with this number.
pub(crate) fn push_at(
    buckets: &mut Vec<Vec<Handle>>,
    number: usize,
    handle: Handle,
) -> Result<(), AllocError>
    requires { number < vec_len buckets.old }
    ensures ok { OnOk result (rows buckets.new.items ≡ slice_set (rows buckets.old.items) number (bucket_at (rows buckets.old.items) number ++ handle ∷ [])) }
    ensures err { OnErr result (rows buckets.new.items ≡ rows buckets.old.items) }
{
    match buckets[number].push(handle) {
        Ok(()) => Ok(()),
        Err(_) => Err(AllocError),
    }
}

/// Keeps the fresh handles of the bucket with this number, and says how many others there were.
pub(crate) fn sift_at(buckets: &mut Vec<Vec<Handle>>, number: usize, serials: &[u32]) -> usize
    requires { number < vec_len buckets.old }
    ensures { rows buckets.new.items ≡ slice_set (rows buckets.old.items) number (filter (is_fresh serials.now) (bucket_at (rows buckets.old.items) number)) }
{
    let bucket = &mut buckets[number];
    let before = bucket.len();
    sift_bucket(bucket, serials);
    before.saturating_sub(bucket.len())
}

/// Keeps the fresh handles of every bucket.
pub(crate) fn sift(buckets: &mut Vec<Vec<Handle>>, serials: &[u32])
    ensures { rows buckets.new.items ≡ map (filter (is_fresh serials.now)) (rows buckets.old.items) }
{
    for bucket in buckets.iter_mut() {
        sift_bucket(bucket, serials);
    }
}

/// An empty bucket behind the last one.
fn new_bucket(buckets: &mut Vec<Vec<Handle>>, alloc: Global) -> Result<u32, AllocError>
    ensures ok { IfOk result (λ n. (n ≡ length (rows buckets.old.items)) × (rows buckets.new.items ≡ rows buckets.old.items ++ [] ∷ [])) }
    ensures err { OnErr result (rows buckets.new.items ≡ rows buckets.old.items) }
{
    let Ok(number) = u32::try_from(buckets.len()) else {
        return Err(AllocError);
    };
    let Ok(()) = buckets.push(Vec::new(alloc)) else {
        return Err(AllocError);
    };
    Ok(number)
}

/// A bucket for a key that has none: a spare one, or one behind the last.
pub(crate) fn open_bucket(
    buckets: &mut Vec<Vec<Handle>>,
    spare: &mut Vec<u32>,
    alloc: Global,
) -> Result<u32, AllocError>
    ensures ok { IfOk result (λ n. OpensBucket (rows buckets.old.items) (rows buckets.new.items) spare.old.items spare.new.items n) }
    ensures err { OnErr result ((rows buckets.new.items ≡ rows buckets.old.items) × (spare.new.items ≡ spare.old.items)) }
{
    if let Some(number) = spare.pop() {
        return Ok(number);
    }
    new_bucket(buckets, alloc)
}

/// Puts the number of a bucket that is not to be used back to the spare ones. Without memory for
/// that the bucket is lost.
pub(crate) fn give_back(spare: &mut Vec<u32>, number: u32)
    ensures { (spare.new.items ≡ spare.old.items) ⊎ (spare.new.items ≡ spare.old.items ++ number ∷ []) }
{
    let _ = spare.push(number);
}
