ghost use Rattle.std.specs.Prelude.{◌≡◌, ◌-◌, ◌<◌, [], not, IsTrue, IfOk, OnOk, OnErr, length, take, None};
ghost use Rattle.dump_capture.specs.Keys.{is_known, number_of, shown, with_key};
ghost use Rattle.dump_capture.specs.Point.{plain_of};

use crate::key::{Key, has_key, key_of, place_of};
use crate::point::Point;
use lists::OutOfMemory;
use std::alloc::Global;
use std::marker::Model;

/// How many interface blocks there is room for at first.
const ROOM: usize = 8;

/// The keys of interface blocks: of those that are written, and of those that wait for their first packet. There is
/// room for all of them among the written ones.
#[derive(Debug, Drop)]
pub(crate) struct Keys {
    alloc: Global,
    written: Vec<Key>,
    waiting: Vec<Key>,
}

impl Model for Keys {
    ghost use Rattle.std.specs.Prelude.{◌^◌, ◌+◌, ◌<◌, ◌≤◌, length};
    ghost use Rattle.std.specs.Vec.{vec_capacity};
    ghost use Rattle.dump_capture.specs.Keys.{Keys};

    ghost Value = { Keys };

    ghost view = { λ keys. record { written = keys.written.items; waiting = keys.waiting.items } };

    ghost invariant = { λ keys.
        (length keys.written.items + length keys.waiting.items < 2 ^ 32)
        × (length keys.written.items + length keys.waiting.items ≤ vec_capacity keys.written) };
}

impl Keys {
    pub(crate) fn new(alloc: Global) -> Result<Self, OutOfMemory>
        ensures { IfOk result (λ keys. keys ≡ record { written = []; waiting = [] }) }
    {
        Ok(Keys {
            alloc,
            written: Vec::with_capacity(alloc, ROOM)?,
            waiting: Vec::new(alloc),
        })
    }

    /// How many are written.
    pub(crate) fn count(&self) -> u32
        ensures { result ≡ length self.now.written }
    {
        self.written.len() as u32
    }

    /// The number of a point's interface block, where it is written.
    pub(crate) fn number_of(&self, point: &Point<'_>) -> Option<u32>
        ensures { result ≡ number_of self.now.written (plain_of point.now) }
    {
        let place = place_of(&self.written, point)?;
        Some(place as u32)
    }

    /// Whether the key of a point is there.
    pub(crate) fn is_known(&self, point: &Point<'_>) -> bool
        ensures { result ≡ is_known self.now (plain_of point.now) }
    {
        has_key(&self.written, point) || has_key(&self.waiting, point)
    }

    /// Makes the key of a point, where it isn't there, and says whether it did.
    #[tactic(auto, unfolding(crate::specs::Keys::with_key))]
    pub(crate) fn reserve(&mut self, point: &Point<'_>) -> Result<bool, OutOfMemory>
        ensures made { IfOk result (λ made. made ≡ not (is_known self.old (plain_of point.now))) }
        ensures ok { OnOk result (self.new ≡ with_key self.old (plain_of point.now)) }
        ensures err { OnErr result (self.new ≡ self.old) }
    {
        if self.is_known(point) {
            return Ok(false);
        }
        if self.written.len() + self.waiting.len() == u32::MAX as usize {
            return Err(OutOfMemory);
        }
        let key = key_of(self.alloc, point)?;
        self.written.reserve(self.waiting.len() + 1)?;
        self.waiting.push(key)?;
        Ok(true)
    }

    /// Drops the key that was made last.
    pub(crate) fn forget(&mut self)
        requires { 0 < length self.old.waiting }
        ensures { self.new ≡ record self.old { waiting = take (length self.old.waiting - 1) self.old.waiting } }
    {
        self.waiting.pop();
    }

    /// Puts the key of a point, which waits, behind those that are written.
    pub(crate) fn show(&mut self, point: &Point<'_>)
        requires known { IsTrue (is_known self.old (plain_of point.now)) }
        requires unwritten { number_of self.old.written (plain_of point.now) ≡ None }
        ensures { self.new ≡ shown self.old (plain_of point.now) }
    {
        if let Some(place) = place_of(&self.waiting, point) {
            let key = self.waiting.remove(place);
            self.written.push_reserved(key);
        }
    }
}
