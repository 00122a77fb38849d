ghost use Rattle.std.specs.Prelude.{◌≡◌, ◌+◌, ◌*◌, ◌<◌, ◌≤◌, ℕ, List, true, false, nat_eq, length, slice_index_or, None, IfSome, IfOk, if◌then◌else◌};
ghost use Rattle.std.specs.Cmp.Lexicographic.{pointwise};
ghost use Rattle.std.specs.Option.{option_copied};
ghost use Rattle.byteorder.specs.Endian.{little_bytes};
ghost use Rattle.flat_memory.specs.Memory.{written};
ghost use Rattle.flat_memory.specs.Numbers.{size_of, stored};
ghost use Rattle.map_store.specs.Initial.{IsMakeable, first_map};
ghost use Rattle.map_store.specs.Slots.{has_key, place_of, least_empty, with_entry, emptied, is_shared, is_array, shape_of};
ghost use Rattle.map_store.specs.SlotsView.{IsFirst};

use crate::buffers::{copy_at, first_keys, first_values};
use crate::chains::{Chains, bucket_of};
use crate::occupancy::Occupancy;
use crate::search::first_key;
use crate::spec::{MapKind, MapSpec, rounded};
use crate::store::{DeleteEnd, UpdateEnd};
use bpf_insn::Size;
use flat_memory::{number, put_number};
use lists::OutOfMemory;
use std::alloc::Global;
use std::marker::Model;

/// The slots of one map in flat buffers. A value begins at a multiple of `stride`.
#[derive(Debug, Drop)]
pub(crate) struct Slots {
    kind: MapKind,
    key_size: usize,
    value_size: usize,
    stride: usize,
    keys: Vec<u8>,
    values: Vec<u8>,
    taken: Occupancy,
    /// The chains of a hash, by which its keys are found. In an array no slot is in one.
    chains: Chains,
}

impl Model for Slots {
    ghost use Rattle.map_store.specs.Slots.{Map};
    ghost use Rattle.map_store.specs.SlotsView.{map_of, HasBuffers};

    ghost Value = { Map };

    ghost view = { map_of };

    ghost invariant = { HasBuffers };
}

impl Slots {
    ghost use Rattle.map_store.specs.Answers.{update_end, updated, delete_end, deleted};
    ghost use Rattle.map_store.specs.Values.{can_read_in, load_in, bytes_in, can_write_in, map_written, values_in};
    ghost use Rattle.map_store.specs.Spec.{rounded, slot_size};

    /// The slots of a map as they are at first.
    pub(crate) fn new(alloc: Global, spec: &MapSpec) -> Result<Self, OutOfMemory>
        requires spec { IsMakeable spec.now }
        requires room { spec.now.max_entries * slot_size spec.now ≤ 4194304 }
        ensures { IfOk result (λ map. map ≡ first_map spec.now) }
    {
        let stride = rounded(spec.value_size);
        let taken = Occupancy::new(alloc, spec.max_entries, spec.kind.is_array())?;
        let chains = Chains::new(alloc, chained_slots(spec))?;
        Ok(Slots {
            kind: spec.kind,
            key_size: spec.key_size as usize,
            value_size: spec.value_size as usize,
            stride,
            keys: first_keys(alloc, spec)?,
            values: first_values(alloc, spec, stride)?,
            taken,
            chains,
        })
    }

    #[inline]
    pub(crate) fn key_size(&self) -> usize
        ensures size { result ≡ self.now.key_size }
        ensures small { result ≤ 512 }
    {
        self.key_size
    }

    #[inline]
    pub(crate) fn value_size(&self) -> usize
        ensures size { result ≡ self.now.value_size }
        ensures small { result ≤ 65536 }
    {
        self.value_size
    }

    /// The place of a key.
    #[inline]
    pub(crate) fn place_of(&self, key: &[u8]) -> Option<usize>
        requires { length key.now ≡ self.now.key_size }
        ensures place { result ≡ place_of key.now self.now.slots }
        ensures within { IfSome result (λ place. place < length self.now.slots) }
    {
        if self.kind.is_array() {
            index_of(key, self.taken.len())
        } else {
            first_key(&self.keys, &self.chains, key)
        }
    }

    /// Where the value of a slot begins among the values.
    #[inline]
    pub(crate) fn offset_of(&self, place: usize) -> u32
        requires { place < length self.now.slots }
        ensures offset { result ≡ place * rounded self.now.value_size }
        ensures within { result < 4194304 }
    {
        (place * self.stride) as u32
    }

    #[inline]
    fn is_shared(&self) -> bool
        ensures { result ≡ is_shared self.now.kind }
    {
        self.kind.is_shared()
    }

    #[inline]
    fn is_array(&self) -> bool
        ensures { result ≡ is_array self.now.kind }
    {
        self.kind.is_array()
    }

    #[tactic(auto, using(crate::proofs::Ends::update_ends))]
    pub(crate) fn update(&mut self, key: &[u8], value: &[u8], flags: u64) -> UpdateEnd
        requires key { length key.now ≡ self.old.key_size }
        requires value { length value.now ≡ self.old.value_size }
        ensures answer { result ≡ update_end self.old key.now flags }
        ensures done { result ≡ UpdateEnd.Done → self.new ≡ updated self.old key.now value.now }
        ensures refused { (result ≡ UpdateEnd.Done → ⊥) → self.new ≡ self.old }
        ensures shape { shape_of self.new ≡ shape_of self.old }
    {
        if self.is_shared() {
            return UpdateEnd::ReadOnly;
        }
        if flags > 2 {
            return UpdateEnd::BadFlag;
        }
        let Some(place) = self.place_of(key) else {
            return self.insert(key, value, flags);
        };
        if flags == 1 {
            return UpdateEnd::Exists;
        }
        self.set_value(place, value);
        UpdateEnd::Done
    }

    /// Puts a value under a key that isn't there.
    #[tactic(auto, using(crate::proofs::Ends::update_ends))]
    fn insert(&mut self, key: &[u8], value: &[u8], flags: u64) -> UpdateEnd
        requires key { length key.now ≡ self.old.key_size }
        requires value { length value.now ≡ self.old.value_size }
        requires kind { is_shared self.old.kind ≡ false }
        requires flags { flags ≤ 2 }
        requires absent { place_of key.now self.old.slots ≡ None }
        ensures answer { result ≡ update_end self.old key.now flags }
        ensures done { result ≡ UpdateEnd.Done → self.new ≡ updated self.old key.now value.now }
        ensures refused { (result ≡ UpdateEnd.Done → ⊥) → self.new ≡ self.old }
        ensures shape { shape_of self.new ≡ shape_of self.old }
    {
        if self.is_array() {
            return UpdateEnd::NoRoom;
        }
        if flags == 2 {
            return UpdateEnd::Missing;
        }
        let Some(place) = self.least_empty() else {
            return UpdateEnd::NoRoom;
        };
        self.fill(place, key, value);
        UpdateEnd::Done
    }

    #[tactic(auto, using(crate::proofs::Ends::delete_ends))]
    pub(crate) fn delete(&mut self, key: &[u8]) -> DeleteEnd
        requires key { length key.now ≡ self.old.key_size }
        ensures answer { result ≡ delete_end self.old key.now }
        ensures done { result ≡ DeleteEnd.Done → self.new ≡ deleted self.old key.now }
        ensures refused { (result ≡ DeleteEnd.Done → ⊥) → self.new ≡ self.old }
        ensures shape { shape_of self.new ≡ shape_of self.old }
    {
        if self.is_shared() {
            return DeleteEnd::ReadOnly;
        }
        if self.is_array() {
            return DeleteEnd::Fixed;
        }
        let Some(place) = self.place_of(key) else {
            return DeleteEnd::Missing;
        };
        self.empty(place);
        DeleteEnd::Done
    }

    fn least_empty(&self) -> Option<usize>
        ensures place { result ≡ least_empty self.now.slots }
        ensures within { IfSome result (λ place. place < length self.now.slots) }
        ensures empty { IfSome result (λ place. slice_index_or self.now.slots place None ≡ None) }
    {
        self.taken.least_empty()
    }

    /// Writes the value of a slot, whose key stays.
    fn set_value(&mut self, place: usize, value: &[u8])
        requires place { place < length self.old.slots }
        requires value { length value.now ≡ self.old.value_size }
        ensures entry { (key : List ℕ) → has_key key (slice_index_or self.old.slots place None) ≡ true → self.new ≡ record self.old { slots = with_entry self.old.slots place (record { key = key; value = value.now }) } }
        ensures shape { shape_of self.new ≡ shape_of self.old }
    {
        copy_at(&mut self.values, place * self.stride, value);
    }

    /// Fills an empty slot of a hash.
    fn fill(&mut self, place: usize, key: &[u8], value: &[u8])
        requires place { place < length self.old.slots }
        requires empty { slice_index_or self.old.slots place None ≡ None }
        requires kind { is_array self.old.kind ≡ false }
        requires key { length key.now ≡ self.old.key_size }
        requires value { length value.now ≡ self.old.value_size }
        ensures { self.new ≡ record self.old { slots = with_entry self.old.slots place (record { key = key.now; value = value.now }) } }
    {
        copy_at(&mut self.keys, place * self.key_size, key);
        copy_at(&mut self.values, place * self.stride, value);
        self.taken.mark(place, true);
        let bucket = bucket_of(key, self.chains.len());
        self.chains.insert(place as u32, bucket);
    }

    /// Empties a slot of a hash.
    fn empty(&mut self, place: usize)
        requires place { place < length self.old.slots }
        requires kind { is_array self.old.kind ≡ false }
        ensures { self.new ≡ record self.old { slots = emptied self.old.slots place } }
    {
        self.taken.mark(place, false);
        self.chains.remove(place as u32);
    }

    /// Whether all of so many bytes from an offset on lie in the value of one taken slot.
    #[inline]
    fn has_bytes(&self, offset: u32, count: usize) -> bool
        ensures answer { result ≡ can_read_in self.now offset count }
        ensures within { result ≡ true → offset + count ≤ 4194304 }
    {
        let place = offset as usize / self.stride;
        let byte = offset as usize % self.stride;
        if place >= self.taken.len() {
            return false;
        }
        if !self.taken.is_taken(place) {
            return false;
        }
        byte <= self.value_size && count <= self.value_size - byte
    }

    /// The number of this size at an offset among the values.
    #[inline]
    pub(crate) fn load(&self, offset: u32, size: Size) -> Option<u64>
        ensures number { result ≡ load_in self.now offset size }
        ensures within { can_read_in self.now offset (size_of size) ≡ true → offset + size_of size ≤ 4194304 }
    {
        if !self.has_bytes(offset, bytes_of(size)) {
            return None;
        }
        Some(number(&self.values, offset as usize, size))
    }

    /// `count` bytes from an offset among the values on.
    #[inline]
    pub(crate) fn bytes(&self, offset: u32, count: usize) -> Option<&[u8]>
        ensures bytes { option_copied result ≡ bytes_in self.now offset count }
        ensures count { IfSome result (λ bytes. length bytes.now ≡ count) }
        ensures within { can_read_in self.now offset count ≡ true → offset + count ≤ 4194304 }
    {
        if !self.has_bytes(offset, count) {
            return None;
        }
        let start = offset as usize;
        Some(&self.values[start..start + count])
    }

    /// Writes the low bytes of a value at an offset among the values.
    #[inline]
    pub(crate) fn store(&mut self, offset: u32, size: Size, value: u64) -> bool
        ensures answer { result ≡ can_write_in self.old offset (size_of size) }
        ensures done { result ≡ true → self.new ≡ map_written self.old offset (stored size value) }
        ensures memory { result ≡ true → values_in self.new ≡ written (values_in self.old) offset (stored size value) }
        ensures within { result ≡ true → offset + size_of size ≤ 4194304 }
        ensures refused { result ≡ false → self.new ≡ self.old }
        ensures shape { shape_of self.new ≡ shape_of self.old }
    {
        if self.is_shared() {
            return false;
        }
        if !self.has_bytes(offset, bytes_of(size)) {
            return false;
        }
        put_number(&mut self.values, offset as usize, size, value);
        true
    }
}

/// How many slots of a map are in chains: in an array a key's place is the key itself.
fn chained_slots(spec: &MapSpec) -> u32
    ensures { result ≡ (if is_array spec.now.kind then 0 else spec.now.max_entries) }
{
    if spec.kind.is_array() {
        0
    } else {
        spec.max_entries
    }
}

/// How many bytes a number of this size has.
#[inline]
fn bytes_of(size: Size) -> usize
    ensures { result ≡ size_of size }
{
    match size {
        Size::Byte => 1,
        Size::Half => 2,
        Size::Word => 4,
        Size::Double => 8,
    }
}

/// The place of an index among so many.
#[inline]
fn index_of(key: &[u8], count: usize) -> Option<usize>
    requires key { length key.now ≡ 4 }
    requires count { count < 4294967296 }
    ensures { IsFirst (λ place. pointwise nat_eq (little_bytes 4 place) key.now) count result }
{
    let place = number(key, 0, Size::Word) as usize;
    if place < count { Some(place) } else { None }
}
