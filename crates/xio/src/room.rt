ghost use Rattle.std.specs.Prelude.{◌≡◌, ◌≤◌, [], ◌++◌, vec_len, vec_capacity, IfOk};
ghost use Rattle.std.specs.Bool.{OnTrue, OnFalse};
ghost use Rattle.xio.specs.Room.{RoomState, fits};

use lists::OutOfMemory;
use std::alloc::Global;
use std::marker::Model;

/// Bytes whose room was taken before the first of them came.
#[derive(Debug, Drop)]
pub struct Room {
    bytes: Vec<u8>,
    size: usize,
}

impl Model for Room {
    ghost Value = { RoomState };

    ghost view = { λ room. record { bytes = room.bytes.items; size = room.size } };

    ghost invariant = { λ room. (vec_len room.bytes ≤ room.size) × (room.size ≤ vec_capacity room.bytes) };
}

impl Room {
    pub fn new(alloc: Global, size: usize) -> Result<Self, OutOfMemory>
        ensures { IfOk result (λ room. room ≡ record { bytes = []; size = size }) }
    {
        Ok(Room {
            bytes: Vec::with_capacity(alloc, size)?,
            size,
        })
    }

    pub fn bytes(&self) -> &[u8]
        ensures { result.now ≡ self.now.bytes }
    {
        self.bytes.as_slice()
    }

    /// Puts a piece behind the bytes and says that it fitted.
    pub fn put(&mut self, piece: &[u8]) -> bool
        ensures fits { result ≡ fits self.old.size self.old.bytes piece.now }
        ensures put { OnTrue result (self.new ≡ record self.old { bytes = self.old.bytes ++ piece.now }) }
        ensures unchanged { OnFalse result (self.new ≡ self.old) }
        ensures same_size { self.new.size ≡ self.old.size }
    {
        if piece.len() > self.size - self.bytes.len() {
            return false;
        }
        self.bytes.extend_from_slice(piece).is_ok()
    }

    pub fn clear(&mut self)
        ensures { self.new ≡ record self.old { bytes = [] } }
    {
        self.bytes.clear();
    }
}
