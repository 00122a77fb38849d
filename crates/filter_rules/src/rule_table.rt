//! Rows under keys, found by their hashes.

ghost use Rattle.std.specs.Prelude.{◌≡◌, ◌+◌, ◌<◌, ◌≤◌, ◌↔◌, true, false, [], ◌∷◌, ◌++◌, length, slice_get, Some, IsOk, IfOk, IfSome, OnOk, OnErr, IsErr};
ghost use Rattle.std.specs.List.{remove, IsDistinct};
ghost use Rattle.std.specs.Map.{keys_of, lookup, remove_entry, set_value};
ghost use Rattle.std.specs.Option.{option_map};
ghost use Rattle.indexmap.specs.IndexMap.{index_map_len, spare};
ghost use Rattle.filter_rules.specs.Table.{place_of, is_there, has_flag, number_at, set_row, clear_row};

use crate::rule::RuleKey;
use crate::rules::{NoSuchRule, RulesFull};
use indexmap::IndexMap;
use std::alloc::Global;
use std::hash::{BuildHasherDefault, DefaultHasher, Hash};
use std::marker::Model;
use std::mem;
use xio::OutOfMemory;

/// What a row holds under its key; the number is that of the publication that made the row.
#[derive(Clone, Copy, Debug, PartialEq, Eq)]
pub struct RowValue {
    pub flags: u8,
    pub number: u32,
}

/// How keys are hashed: by SipHash, with no secret.
type Hashing = BuildHasherDefault<DefaultHasher>;

/// Rows in the order in which they were made, with different keys.
///
/// A map that loses an entry may want memory for the next one, and one that loses all of them doesn't. So a row goes as
/// all others move into a second map, and the two change places.
#[derive(Debug, Drop)]
pub struct RuleTable<K: Eq + Hash + Drop> {
    rows: IndexMap<K, RowValue, Hashing>,
    other: IndexMap<K, RowValue, Hashing>,
    room: u32,
}

impl<K: Eq + Hash + Drop> Model for RuleTable<K> {
    ghost use Rattle.std.specs.Prelude.{◌≡◌, ◌≤◌, ◌<◌, ◌+◌, ◌^◌, []};
    ghost use Rattle.indexmap.specs.IndexMap.{index_map_len, spare};
    ghost use Rattle.filter_rules.specs.Table.{Table};

    ghost Value = { Table K };

    ghost view = { λ t. record { rows = t.rows.entries; room = t.room } };

    ghost invariant = { λ t. (t.room < 2 ^ 32) × (index_map_len t.rows ≤ t.room) × (t.room ≤ index_map_len t.rows + spare t.rows)
        × (t.other.entries ≡ []) × (t.room ≤ spare t.other) };
}

impl RuleTable<RuleKey> {
    /// The same rows with the same room, from the memory that these rows take theirs from.
    pub(crate) fn copy(&self) -> Result<Self, OutOfMemory>
        ensures { IfOk result (λ copy. copy ≡ self.now) }
    {
        let room = self.room as usize;
        let mut rows = self.rows.clone()?;
        rows.reserve(room - self.rows.len())?;
        let other = IndexMap::with_capacity_and_hasher(
            *self.rows.allocator(),
            room,
            Hashing::new(),
        )?;
        Ok(RuleTable {
            rows,
            other,
            room: self.room,
        })
    }
}

impl<K: Eq + Hash + Drop> RuleTable<K> {
    /// No rows, and the room of so many.
    pub fn new(alloc: Global, rows: u32) -> Result<Self, OutOfMemory>
        ensures { IfOk result (λ table. table ≡ record { rows = []; room = rows }) }
    {
        let hashing = Hashing::new();
        Ok(RuleTable {
            rows: IndexMap::with_capacity_and_hasher(alloc, rows as usize, hashing)?,
            other: IndexMap::with_capacity_and_hasher(alloc, rows as usize, hashing)?,
            room: rows,
        })
    }

    pub fn len(&self) -> u32
        ensures value { result ≡ length self.now.rows }
        ensures within { result ≤ self.now.room }
        ensures different { IsDistinct K.eq (keys_of self.now.rows) }
    {
        self.rows.len() as u32
    }

    /// What the row with the key holds.
    pub(crate) fn get(&self, key: &K) -> Option<RowValue>
        ensures value { result ≡ lookup (K.eq key.now) self.now.rows }
        ensures different { IsDistinct K.eq (keys_of self.now.rows) }
    {
        let _rows = self.rows.len();
        self.rows.get(key).copied()
    }

    /// The place of the row with the key.
    pub fn find(&self, key: &K) -> Option<u32>
        ensures place { result ≡ place_of K.eq self.now.rows key.now }
        ensures within { IfSome result (λ place. place < length self.now.rows) }
        ensures different { IsDistinct K.eq (keys_of self.now.rows) }
    {
        let _rows = self.len();
        let place = self.rows.get_index_of(key)?;
        Some(place as u32)
    }

    pub fn key(&self, index: u32) -> &K
        requires { index < length self.now.rows }
        ensures { option_map (λ row. row.0) (slice_get self.now.rows index) ≡ Some result.now }
    {
        self.rows.get_index(index as usize).unwrap().0
    }

    pub fn flags(&self, index: u32) -> u8
        requires { index < length self.now.rows }
        ensures { option_map (λ row. row.1.flags) (slice_get self.now.rows index) ≡ Some result }
    {
        self.rows[index as usize].flags
    }

    /// The number of the publication that made the row.
    pub fn number(&self, index: u32) -> u32
        requires { index < length self.now.rows }
        ensures { option_map (λ row. row.1.number) (slice_get self.now.rows index) ≡ Some result }
    {
        self.rows[index as usize].number
    }

    /// Sets flags in the row of the key, or makes a row of this number, and answers the row's number.
    pub fn add(&mut self, key: K, flags: u8, number: u32) -> Result<u32, RulesFull>
        ensures rows { OnOk result (self.new ≡ record self.old { rows = set_row K.eq self.old.rows key flags number }) }
        ensures number { IfOk result (λ n. n ≡ number_at K.eq self.old.rows key number) }
        ensures full { IsErr result ↔ ((is_there K.eq self.old.rows key ≡ false) × (length self.old.rows ≡ self.old.room)) }
        ensures err { OnErr result (self.new ≡ self.old) }
    {
        let Some(value) = self.get(&key) else {
            return self.push(key, RowValue { flags, number });
        };
        let more = RowValue {
            flags: value.flags | flags,
            ..value
        };
        self.put(&key, more);
        Ok(value.number)
    }

    /// Clears flags in the row of the key, and drops the row where it has no flag left.
    pub fn remove(&mut self, key: &K, flags: u8) -> Result<(), NoSuchRule>
        ensures rows { OnOk result (self.new ≡ record self.old { rows = clear_row K.eq self.old.rows key.now flags }) }
        ensures none { IsErr result ↔ (has_flag K.eq self.old.rows key.now flags ≡ false) }
        ensures err { OnErr result (self.new ≡ self.old) }
        ensures different { IsDistinct K.eq (keys_of self.old.rows) }
    {
        let Some(value) = self.get(key) else {
            return Err(NoSuchRule);
        };
        if value.flags & flags == 0 {
            return Err(NoSuchRule);
        }
        let left = RowValue {
            flags: value.flags & !flags,
            ..value
        };
        if left.flags == 0 {
            self.drop_row(key);
        } else {
            self.put(key, left);
        }
        Ok(())
    }

    /// Drops all rows.
    pub fn clear(&mut self)
        ensures { self.new ≡ record self.old { rows = [] } }
    {
        self.rows.clear();
    }

    /// Makes a row behind the others.
    fn push(&mut self, key: K, value: RowValue) -> Result<u32, RulesFull>
        requires { is_there K.eq self.old.rows key ≡ false }
        ensures rows { OnOk result (self.new ≡ record self.old { rows = self.old.rows ++ (key, value) ∷ [] }) }
        ensures number { IfOk result (λ n. n ≡ value.number) }
        ensures full { IsErr result ↔ (length self.old.rows ≡ self.old.room) }
        ensures err { OnErr result (self.new ≡ self.old) }
    {
        if self.len() == self.room {
            return Err(RulesFull);
        }
        self.rows.insert(key, value).unwrap();
        Ok(value.number)
    }

    /// Changes what the row with the key holds.
    fn put(&mut self, key: &K, value: RowValue)
        requires { is_there K.eq self.old.rows key.now ≡ true }
        ensures { self.new ≡ record self.old { rows = set_value (K.eq key.now) self.old.rows value } }
    {
        if let Some(held) = self.rows.get_mut(key) {
            *held = value;
        }
    }

    /// Drops the row with the key; the others keep their order.
    fn drop_row(&mut self, key: &K)
        requires { is_there K.eq self.old.rows key.now ≡ true }
        ensures { self.new ≡ record self.old { rows = remove_entry (K.eq key.now) self.old.rows } }
    {
        let place = self.rows.get_index_of(key).unwrap();
        move_others(&mut self.rows, &mut self.other, place);
        mem::swap(&mut self.rows, &mut self.other);
    }
}

/// Moves all rows but the one at a place into an empty map, in their order.
fn move_others<K: Eq + Hash + Drop>(
    from: &mut IndexMap<K, RowValue, Hashing>,
    to: &mut IndexMap<K, RowValue, Hashing>,
    place: usize,
)
    requires place { place < index_map_len from.old }
    requires empty { to.old.entries ≡ [] }
    requires room { index_map_len from.old ≤ spare to.old }
    ensures moved { to.new.entries ≡ remove from.old.entries place }
    ensures to_room { spare to.old ≤ index_map_len to.new + spare to.new }
    ensures emptied { from.new.entries ≡ [] }
    ensures from_room { index_map_len from.old + spare from.old ≤ spare from.new }
{
    let rows = from.len();
    let mut moving = from.drain(..);
    for index in 0..rows {
        let (key, value) = moving.next().unwrap();
        if index != place {
            to.insert(key, value).unwrap();
        }
    }
}
