//! Places of keys.

ghost use Rattle.std.specs.Prelude.{◌≡◌, ◌+◌, ◌*◌, ◌<◌, ◌≤◌, nat_eq, length, take, drop};
ghost use Rattle.std.specs.Cmp.Lexicographic.{pointwise};
ghost use Rattle.map_store.specs.SlotsView.{IsFirst, AreOfKeys, has_key_at};

use crate::chains::{Chains, bucket_of};

/// The first slot that has the key, which is in the key's bucket.
pub(crate) fn first_key(keys: &[u8], chains: &Chains, key: &[u8]) -> Option<usize>
    requires slots { 0 < length chains.now }
    requires few { length chains.now ≤ 1048576 }
    requires keys { length keys.now ≡ length chains.now * length key.now }
    requires small { length keys.now ≤ 4194304 }
    requires buckets { AreOfKeys (length key.now) keys.now chains.now }
    ensures { IsFirst (has_key_at keys.now chains.now key.now) (length chains.now) result }
{
    let bucket = bucket_of(key, chains.len());
    let mut before = None;
    while let Some(slot) = chains.next(bucket, before) {
        let place = slot as usize;
        if is_at(keys, place * key.len(), key) {
            return Some(place);
        }
        before = Some(slot);
    }
    None
}

/// Whether the key stands at this byte.
#[inline]
fn is_at(keys: &[u8], start: usize, key: &[u8]) -> bool
    requires { start + length key.now ≤ length keys.now }
    ensures { result ≡ pointwise nat_eq (take (length key.now) (drop start keys.now)) key.now }
{
    &keys[start..start + key.len()] == key
}
