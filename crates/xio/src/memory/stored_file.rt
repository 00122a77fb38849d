ghost use Rattle.std.specs.Prelude.{◌≡◌, [], None, length, IfOk};

use crate::memory::copies::copy_of;
use crate::room::Room;
use lists::{Bytes, OutOfMemory};
use std::alloc::Global;

/// A file in memory.
#[derive(Debug, Drop)]
pub struct StoredFile {
    pub name: Bytes,
    pub room: Room,
    /// How many of its bytes are flushed.
    pub flushed: usize,
    /// Where a read of it fails.
    pub bad_place: Option<u64>,
}

impl StoredFile {
    /// A file of these bytes, with no room for more.
    pub fn holding(
        alloc: Global,
        name: &str,
        bytes: &[u8],
        bad_place: Option<u64>,
    ) -> Result<Self, OutOfMemory>
        ensures name { IfOk result (λ file. file.name ≡ name.now) }
        ensures bytes { IfOk result (λ file. file.room.bytes ≡ bytes.now) }
        ensures size { IfOk result (λ file. file.room.size ≡ length bytes.now) }
        ensures unflushed { IfOk result (λ file. file.flushed ≡ 0) }
        ensures bad_place { IfOk result (λ file. file.bad_place ≡ bad_place) }
    {
        let mut room = Room::new(alloc, bytes.len())?;
        let _ = room.put(bytes);
        Ok(StoredFile {
            name: copy_of(alloc, name.as_bytes())?,
            room,
            flushed: 0,
            bad_place,
        })
    }

    /// An empty file with room for `capacity` bytes.
    pub fn empty(alloc: Global, name: &str, capacity: u32) -> Result<Self, OutOfMemory>
        ensures name { IfOk result (λ file. file.name ≡ name.now) }
        ensures room { IfOk result (λ file. file.room ≡ record { bytes = []; size = capacity }) }
        ensures unflushed { IfOk result (λ file. file.flushed ≡ 0) }
        ensures no_bad_place { IfOk result (λ file. file.bad_place ≡ None) }
    {
        Ok(StoredFile {
            name: copy_of(alloc, name.as_bytes())?,
            room: Room::new(alloc, capacity as usize)?,
            flushed: 0,
            bad_place: None,
        })
    }
}
