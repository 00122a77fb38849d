//! The slots of a hash by the buckets of their keys.

ghost use Rattle.std.specs.Prelude.{◌≡◌, ◌+◌, ◌*◌, ◌<◌, ◌≤◌, length, replicate, slice_index_or, slice_set, None, Some, IfOk};
ghost use Rattle.map_store.specs.Buckets.{bucket_of, link_place, IsIn, after, IsFirstIn, IsLastIn};

use lists::OutOfMemory;
use std::alloc::Global;
use std::hash::{DefaultHasher, Hasher};
use std::marker::Model;

/// The bucket of each slot that is in one. There are as many buckets as slots, and the slots of a bucket make a chain, in the
/// order of their places.
#[derive(Debug, Drop)]
pub(crate) struct Chains {
    buckets: Vec<Option<u32>>,
    /// The first slot of each bucket, and behind these for each slot the next one of its bucket.
    links: Vec<Option<u32>>,
}

impl Model for Chains {
    ghost use Rattle.std.specs.Prelude.{ℕ, List, Option, length};
    ghost use Rattle.map_store.specs.Buckets.{AreChains};

    ghost Value = { List (Option ℕ) };

    ghost view = { λ chains. chains.buckets.items };

    ghost invariant = { λ chains. AreChains (length chains.buckets.items) chains.buckets.items chains.links.items };
}

impl Chains {
    /// So many slots, all of them in no bucket.
    pub(crate) fn new(alloc: Global, slots: u32) -> Result<Self, OutOfMemory>
        requires { slots ≤ 1048576 }
        ensures { IfOk result (λ chains. chains ≡ replicate slots None) }
    {
        Ok(Chains {
            buckets: vec![in alloc; None; slots as usize]?,
            links: vec![in alloc; None; slots as usize * 2]?,
        })
    }

    /// How many slots and buckets there are.
    #[inline]
    pub(crate) fn len(&self) -> u32
        ensures { result ≡ length self.now }
    {
        self.buckets.len() as u32
    }

    /// The slot behind one in its bucket, or the first slot of the bucket.
    #[inline]
    pub(crate) fn next(&self, bucket: u32, before: Option<u32>) -> Option<u32>
        requires bucket { bucket < length self.now }
        requires before { IsIn self.now bucket before }
        ensures { IsFirstIn self.now bucket (after before) result }
    {
        self.links[link_place(self.buckets.len(), bucket, before)]
    }

    /// The last slot of a bucket in front of a place.
    fn last_before(&self, bucket: u32, place: u32) -> Option<u32>
        requires { bucket < length self.now }
        ensures { IsLastIn self.now bucket place result }
    {
        let mut before = None;
        while let Some(slot) = self.next(bucket, before) {
            if slot >= place {
                return before;
            }
            before = Some(slot);
        }
        before
    }

    /// Puts a slot that is in no bucket into one.
    pub(crate) fn insert(&mut self, place: u32, bucket: u32)
        requires place { place < length self.old }
        requires bucket { bucket < length self.old }
        requires outside { slice_index_or self.old place None ≡ None }
        ensures { self.new ≡ slice_set self.old place (Some bucket) }
    {
        let before = self.last_before(bucket, place);
        let behind = self.next(bucket, before);
        let slots = self.buckets.len();
        self.links[link_place(slots, bucket, Some(place))] = behind;
        self.links[link_place(slots, bucket, before)] = Some(place);
        self.buckets[place as usize] = Some(bucket);
    }

    /// Takes a slot out of its bucket, if it is in one.
    pub(crate) fn remove(&mut self, place: u32)
        requires { place < length self.old }
        ensures { self.new ≡ slice_set self.old place None }
    {
        let Some(bucket) = self.buckets[place as usize] else {
            return;
        };
        let before = self.last_before(bucket, place);
        let behind = self.next(bucket, Some(place));
        let slots = self.buckets.len();
        self.links[link_place(slots, bucket, before)] = behind;
        self.buckets[place as usize] = None;
    }
}

/// Where the link to a bucket's first slot stands, or the one to the slot behind another.
#[inline]
fn link_place(slots: usize, bucket: u32, before: Option<u32>) -> usize
    requires { slots ≤ 1048576 }
    ensures { result ≡ link_place slots bucket before }
{
    match before {
        None => bucket as usize,
        Some(place) => slots + place as usize,
    }
}

/// The bucket of a key among so many.
#[inline]
#[tactic(auto, unfolding(crate::specs::Buckets::bucket_of))]
pub(crate) fn bucket_of(key: &[u8], buckets: u32) -> u32
    requires { 0 < buckets }
    ensures bucket { result ≡ bucket_of buckets key.now }
    ensures within { result < buckets }
{
    let mut hasher = DefaultHasher::new();
    hasher.write(key);
    (hasher.finish() % buckets as u64) as u32
}
