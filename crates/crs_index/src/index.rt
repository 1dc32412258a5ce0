//! Handles by key.
ghost use Rattle.std.specs.Prelude.{◌≡◌, ◌<◌, [], length, OnOk, OnErr, IfOk, IfSome, Some};
ghost use Rattle.crs_index.specs.KeyNumbers.{number_in};
ghost use Rattle.crs_index.specs.Indexes.{bucket_at, bucket_of, number_of, IsSame, IsSound, Puts, Cleans, Sweeps};
ghost use Rattle.crs_index.specs.Rows.{rows};

use crate::buckets::{give_back, is_bare, open_bucket, push_at, sift, sift_at};
use crate::key::Key;
use crate::numbers::Numbers;
use crs_agenda::Handle;
use std::alloc::{AllocError, Global};
use std::marker::Model;

/// Handles and buckets that may be there before the first sweep is due.
const ROOM: usize = 1024;

/// Handles by key. Stale ones stay until they are cleaned or swept away.
#[derive(Drop)]
pub struct Index {
    numbers: Numbers,
    buckets: Vec<Vec<Handle>>,
    /// The numbers of empty buckets that no key has.
    spare: Vec<u32>,
    /// Handles and buckets together, as far as counted.
    size: usize,
    limit: usize,
    alloc: Global,
}

impl Model for Index {
    ghost use Rattle.crs_index.specs.Indexes.{IndexState, IsKept};
    ghost use Rattle.crs_index.specs.Rows.{rows};

    ghost Value = { IndexState };

    ghost view = { λ i. record { numbers = i.numbers; buckets = rows i.buckets.items } };

    ghost invariant = { λ i. IsKept (record { numbers = i.numbers; buckets = rows i.buckets.items }) i.spare.items };
}

/// How many handles there are, and buckets that are not spare.
fn count(buckets: &Vec<Vec<Handle>>, spare: usize) -> usize {
    let mut count = buckets.len().saturating_sub(spare);
    for bucket in buckets {
        count = count.saturating_add(bucket.len());
    }
    count
}

impl Index {
    /// An index without handles, which takes no memory.
    pub fn new(alloc: Global) -> Index
        ensures { (k : _) → bucket_of result k ≡ [] }
    {
        Index {
            numbers: Numbers::new(alloc),
            buckets: Vec::new(alloc),
            spare: Vec::new(alloc),
            size: 0,
            limit: ROOM,
            alloc,
        }
    }

    /// The number of the key's bucket, where it has one.
    #[inline(always)]
    pub fn find(&self, key: &Key) -> Option<u32>
        ensures is { result ≡ number_of self.now key.now }
        ensures below { IfSome result (λ n. n < length self.now.buckets) }
        ensures sound { IsSound self.now }
    {
        self.numbers.find(key)
    }

    /// The handles of the bucket with this number, fresh and stale.
    #[inline(always)]
    pub fn bucket(&self, number: u32) -> &[Handle]
        requires { number < length self.now.buckets }
        ensures { result.now ≡ bucket_at self.now.buckets number }
    {
        self.buckets[number as usize].as_slice()
    }

    /// Drops the stale handles of the bucket.
    pub fn clean(&mut self, number: u32, serials: &[u32])
        requires { number < length self.old.buckets }
        ensures { Cleans self.old self.new number serials.now }
    {
        let dropped = sift_at(&mut self.buckets, number as usize, serials);
        self.size = self.size.saturating_sub(dropped);
    }

    /// The number of the key's bucket, which is a new one where it has none.
    fn bucket_for(&mut self, key: Key) -> Result<u32, AllocError>
        ensures ok { IfOk result (λ n. number_of self.new key ≡ Some n) }
        ensures same { IsSame self.old self.new }
    {
        if let Some(number) = self.numbers.find(&key) {
            return Ok(number);
        }
        let Ok(number) = open_bucket(&mut self.buckets, &mut self.spare, self.alloc) else {
            return Err(AllocError);
        };
        let Ok(()) = self.numbers.set(key, number) else {
            give_back(&mut self.spare, number);
            return Err(AllocError);
        };
        self.size = self.size.saturating_add(1);
        Ok(number)
    }

    /// Puts the handle under the key. After a refusal every key has what it had.
    pub fn put(&mut self, key: Key, handle: Handle) -> Result<(), AllocError>
        ensures ok { OnOk result (Puts self.old self.new key handle) }
        ensures err { OnErr result (IsSame self.old self.new) }
    {
        let Ok(number) = self.bucket_for(key) else {
            return Err(AllocError);
        };
        let Ok(()) = push_at(&mut self.buckets, number as usize, handle) else {
            return Err(AllocError);
        };
        self.size = self.size.saturating_add(1);
        Ok(())
    }

    /// Whether stale handles and empty buckets may be most of what is there, so that a sweep pays.
    #[inline(always)]
    pub fn is_crowded(&self) -> bool {
        self.size >= self.limit
    }

    /// Takes the key's bucket away, if it is empty.
    fn free_key(&mut self, key: &Key)
        ensures { IsSame self.old self.new }
    {
        let Some(number) = self.numbers.find(key) else {
            return;
        };
        if !is_bare(&self.buckets, number) {
            return;
        }
        let Ok(()) = self.spare.push(number) else {
            return;
        };
        self.numbers.forget(key);
    }

    /// Takes empty buckets away, as far as there is memory for it.
    fn free_empty(&mut self)
        ensures { IsSame self.old self.new }
    {
        let Ok(keys) = self.numbers.empty_keys(&self.buckets) else {
            return;
        };
        for key in keys.as_slice() {
            self.free_key(key);
        }
    }

    /// Counts again, and sets when the next sweep is due.
    fn recount(&mut self)
        ensures { self.new ≡ self.old }
    {
        self.size = count(&self.buckets, self.spare.len());
        self.limit = self.size.saturating_mul(2).saturating_add(ROOM);
    }

    /// Drops the stale handles of every bucket.
    fn sift(&mut self, serials: &[u32])
        ensures { Sweeps self.old self.new serials.now }
    {
        sift(&mut self.buckets, serials);
    }

    /// Drops the stale handles, and the keys that are left without any.
    pub fn sweep(&mut self, serials: &[u32])
        ensures { Sweeps self.old self.new serials.now }
    {
        self.sift(serials);
        self.free_empty();
        self.recount();
    }
}
