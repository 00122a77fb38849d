ghost use Rattle.std.specs.Prelude.{◌≡◌, ◌+◌, ◌<◌, ◌≤◌, true, false, length, map, IfSome, IfOk, List};
ghost use Rattle.std.specs.Option.{option_copied};
ghost use Rattle.flat_memory.specs.Memory.{written};
ghost use Rattle.flat_memory.specs.Numbers.{size_of, stored};
ghost use Rattle.map_store.specs.Initial.{AreMakeable, first_map};
ghost use Rattle.map_store.specs.Slots.{map_at, with_map, shapes};

use crate::slots::Slots;
use crate::spec::MapSpec;
use bpf_insn::Size;
use lists::OutOfMemory;
use std::alloc::Global;
use std::marker::Model;

/// Where the values begin, and how far the maps stand apart.
const VALUES: u64 = 0x4000_0000;

const ROOM: u64 = 0x0100_0000;

/// What an update answers. All but `Done` leave the store as it was.
#[derive(Clone, Copy, Debug, PartialEq, Eq)]
pub enum UpdateEnd {
    Done,
    /// Programs don't change maps of this kind.
    ReadOnly,
    /// The flags are above 2.
    BadFlag,
    /// The flags ask for a key that is there.
    Missing,
    /// The flags ask for a new key.
    Exists,
    /// Each slot is taken, or the index is past the end.
    NoRoom,
}

/// What a delete answers. All but `Done` leave the store as it was.
#[derive(Clone, Copy, Debug, PartialEq, Eq)]
pub enum DeleteEnd {
    Done,
    /// Programs don't change maps of this kind.
    ReadOnly,
    /// An array keeps its keys.
    Fixed,
    Missing,
}

/// The maps of a program on one processor. Only `new` takes memory.
#[derive(Debug, Drop)]
pub struct Store {
    maps: Vec<Slots>,
}

impl Model for Store {
    ghost use Rattle.std.specs.Prelude.{List};
    ghost use Rattle.map_store.specs.Slots.{Map};
    ghost use Rattle.map_store.specs.SlotsView.{FewMaps};

    ghost Value = { List Map };

    ghost view = { λ store. store.maps.items };

    ghost invariant = { λ store. FewMaps store.maps.items };
}

impl Store {
    ghost use Rattle.map_store.specs.Answers.{update_end, updated, delete_end, deleted};
    ghost use Rattle.map_store.specs.Values.{lookup_of, load_of, bytes_of, can_write, maps_written, values};

    /// The maps of these specs as they are at first.
    pub fn new(alloc: Global, specs: &[MapSpec]) -> Result<Self, OutOfMemory>
        requires { AreMakeable specs.now }
        ensures { IfOk result (λ store. store ≡ map first_map specs.now) }
    {
        let mut maps = Vec::with_capacity(alloc, specs.len())?;
        for spec in specs {
            maps.push(Slots::new(alloc, spec)?)?;
        }
        Ok(Store { maps })
    }

    /// How many maps there are.
    pub fn len(&self) -> u32
        ensures { result ≡ length self.now }
    {
        self.maps.len() as u32
    }

    /// The size of a map's keys, in bytes: at most 512.
    pub fn key_size(&self, map: u32) -> usize
        requires { map < length self.now }
        ensures size { result ≡ (map_at self.now map).key_size }
        ensures small { result ≤ 512 }
    {
        self.maps[map as usize].key_size()
    }

    /// The size of a map's values, in bytes: at most 65,536.
    pub fn value_size(&self, map: u32) -> usize
        requires { map < length self.now }
        ensures size { result ≡ (map_at self.now map).value_size }
        ensures small { result ≤ 65536 }
    {
        self.maps[map as usize].value_size()
    }

    /// The address of the value of a key, if the key is there. An array has the keys 0 to its size less 1, 4 bytes each,
    /// the lowest first.
    #[inline]
    pub fn lookup(&self, map: u32, key: &[u8]) -> Option<u32>
        requires map { map < length self.now }
        requires key { length key.now ≡ (map_at self.now map).key_size }
        ensures { result ≡ lookup_of self.now map key.now }
    {
        let slots = &self.maps[map as usize];
        let place = slots.place_of(key)?;
        Some(VALUES as u32 + map * ROOM as u32 + slots.offset_of(place))
    }

    /// Puts a value under a key. With the flags 1 the key is to be new, with 2 it is to be there. A new key takes the least
    /// empty slot; no other slot changes.
    pub fn update(&mut self, map: u32, key: &[u8], value: &[u8], flags: u64) -> UpdateEnd
        requires map { map < length self.old }
        requires key { length key.now ≡ (map_at self.old map).key_size }
        requires value { length value.now ≡ (map_at self.old map).value_size }
        ensures answer { result ≡ update_end (map_at self.old map) key.now flags }
        ensures done { result ≡ UpdateEnd.Done → self.new ≡ with_map self.old map (updated (map_at self.old map) key.now value.now) }
        ensures refused { (result ≡ UpdateEnd.Done → ⊥) → self.new ≡ self.old }
        ensures shapes { shapes self.new ≡ shapes self.old }
    {
        self.maps[map as usize].update(key, value, flags)
    }

    /// Empties the slot of a key; no other slot changes.
    pub fn delete(&mut self, map: u32, key: &[u8]) -> DeleteEnd
        requires map { map < length self.old }
        requires key { length key.now ≡ (map_at self.old map).key_size }
        ensures answer { result ≡ delete_end (map_at self.old map) key.now }
        ensures done { result ≡ DeleteEnd.Done → self.new ≡ with_map self.old map (deleted (map_at self.old map) key.now) }
        ensures refused { (result ≡ DeleteEnd.Done → ⊥) → self.new ≡ self.old }
        ensures shapes { shapes self.new ≡ shapes self.old }
    {
        self.maps[map as usize].delete(key)
    }

    /// The number of this size at an address, if all its bytes lie in the value of one live slot.
    #[inline]
    pub fn load(&self, address: u64, size: Size) -> Option<u64>
        ensures { result ≡ load_of self.now address size }
    {
        let offset = address.checked_sub(VALUES)?;
        let number = (offset / ROOM) as usize;
        if number >= self.maps.len() {
            return None;
        }
        self.maps[number].load((offset % ROOM) as u32, size)
    }

    /// `count` bytes from an address on, if all of them lie in the value of one live slot.
    #[inline]
    pub fn bytes(&self, address: u64, count: usize) -> Option<&[u8]>
        ensures bytes { option_copied result ≡ bytes_of self.now address count }
        ensures count { IfSome result (λ bytes. length bytes.now ≡ count) }
    {
        let offset = address.checked_sub(VALUES)?;
        let number = (offset / ROOM) as usize;
        if number >= self.maps.len() {
            return None;
        }
        self.maps[number].bytes((offset % ROOM) as u32, count)
    }

    /// Writes the low bytes of a value at an address, if all of them lie in the value of one live slot and programs may
    /// write there, and answers whether they do. Otherwise nothing changes.
    #[inline]
    pub fn store(&mut self, address: u64, size: Size, value: u64) -> bool
        ensures answer { result ≡ can_write self.old address (size_of size) }
        ensures done { result ≡ true → self.new ≡ maps_written self.old address (stored size value) }
        ensures memory { result ≡ true → values self.new ≡ written (values self.old) address (stored size value) }
        ensures refused { result ≡ false → self.new ≡ self.old }
        ensures shapes { shapes self.new ≡ shapes self.old }
    {
        let Some(offset) = address.checked_sub(VALUES) else {
            return false;
        };
        let number = (offset / ROOM) as usize;
        if number >= self.maps.len() {
            return false;
        }
        self.maps[number].store((offset % ROOM) as u32, size, value)
    }
}
