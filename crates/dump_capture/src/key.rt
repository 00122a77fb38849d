ghost use Rattle.std.specs.Prelude.{◌≡◌, ◌<◌, IfOk};
ghost use Rattle.dump_capture.specs.Key.{is_key_of, key_of};
ghost use Rattle.dump_capture.specs.Keys.{has_key, number_of};
ghost use Rattle.dump_capture.specs.Point.{plain_of};

use crate::point::Point;
use lists::{Bytes, OutOfMemory};
use std::alloc::Global;

/// What an interface block of the capture stands for.
#[derive(Debug, Drop)]
pub struct Key {
    pub interface: Bytes,
    pub name: Bytes,
    pub exit: bool,
    pub snap: u32,
}

fn copy_of(alloc: Global, bytes: &[u8]) -> Result<Bytes, OutOfMemory>
    ensures { IfOk result (λ copy. copy ≡ bytes.now) }
{
    let mut copy = Bytes::new(alloc);
    copy.append(bytes)?;
    Ok(copy)
}

pub(crate) fn key_of(alloc: Global, point: &Point<'_>) -> Result<Key, OutOfMemory>
    ensures { IfOk result (λ key. key ≡ key_of (plain_of point.now)) }
{
    Ok(Key {
        interface: copy_of(alloc, point.interface)?,
        name: copy_of(alloc, point.name)?,
        exit: point.exit,
        snap: point.snap,
    })
}

#[tactic(auto, unfolding(crate::specs::Key::is_key_of))]
fn is_key_of(point: &Point<'_>, key: &Key) -> bool
    ensures { result ≡ is_key_of (plain_of point.now) key.now }
{
    key.snap == point.snap
        && key.exit == point.exit
        && key.interface.as_slice() == point.interface
        && key.name.as_slice() == point.name
}

/// Whether the key of a point is among these.
#[tactic(auto, unfolding(crate::specs::Keys::has_key))]
pub(crate) fn has_key(keys: &[Key], point: &Point<'_>) -> bool
    ensures { result ≡ has_key keys.now (plain_of point.now) }
{
    keys.iter().any(|key| is_key_of(point, key))
}

/// The place of a point's key.
pub(crate) fn place_of(keys: &[Key], point: &Point<'_>) -> Option<usize>
    ensures { result ≡ number_of keys.now (plain_of point.now) }
{
    keys.iter().position(|key| is_key_of(point, key))
}
