ghost use Rattle.std.specs.Prelude.{◌≡◌, ◌≤◌, ◌||◌, true, length, drop, is_err, IfOk};
ghost use Rattle.xio.specs.CallPlan.{next_call, is_failing};
ghost use Rattle.xio.specs.Causes.{HasCause};
ghost use Rattle.xio.specs.Pieces.{is_bad, StopsAt, place_after};
ghost use Rattle.xio.specs.Streams.{ReadsFrom};

use crate::failed::Failed;
use crate::memory::calls::Calls;
use crate::memory::copies::copy_of;
use crate::memory::pieces::{fill, piece_at};
use crate::source::Source;
use lists::{Bytes, OutOfMemory};
use std::alloc::Global;

/// A source in memory. It fails at the calls that are to fail and at its bad place.
#[derive(Debug, Drop)]
pub struct MemorySource {
    bytes: Bytes,
    place: u64,
    bad_place: Option<u64>,
    faults: u64,
    calls: Calls,
}

impl MemorySource {
    ghost use Rattle.xio.specs.MemorySource.{calls_of, place_of, bad_place_of};

    /// `failing` are the calls that are to fail, numbered from 1. A read at `bad_place` fails.
    pub fn new(
        alloc: Global,
        bytes: &[u8],
        failing: &[u32],
        bad_place: Option<u64>,
    ) -> Result<Self, OutOfMemory>
        ensures rest { IfOk result (λ source. ⟦<MemorySource as Source>⟧.rest source ≡ bytes.now) }
        ensures faultless { IfOk result (λ source. ⟦<MemorySource as Source>⟧.faults source ≡ 0) }
        ensures calls { IfOk result (λ source. calls_of source ≡ record { failing = failing.now; made = 0 }) }
        ensures place { IfOk result (λ source. place_of source ≡ 0) }
        ensures bad_place { IfOk result (λ source. bad_place_of source ≡ bad_place) }
    {
        Ok(MemorySource {
            bytes: copy_of(alloc, bytes)?,
            place: 0,
            bad_place,
            faults: 0,
            calls: Calls::new(alloc, failing)?,
        })
    }
}

impl Source for MemorySource {
    ghost use Rattle.xio.specs.MemorySource.{calls_of, place_of, bad_place_of, rest_of, faults_of};

    ghost tells = { true };

    ghost rest = { rest_of };

    ghost faults = { faults_of };

    ghost setting = { λ _. tt };

    fn read(&mut self, buffer: &mut [u8]) -> Result<usize, Failed>
        ensures within { IfOk result (λ n. n ≤ length buffer.new) }
        ensures bytes { ReadsFrom (rest_of self.old) (rest_of self.new) result buffer.new }
        ensures cause { HasCause (faults_of self.old) (faults_of self.new) result }
        ensures fails { is_err result ≡ (is_failing (calls_of self.new) || is_bad (bad_place_of self.old) (place_of self.old)) }
        ensures counted { calls_of self.new ≡ next_call (calls_of self.old) }
        ensures stops { StopsAt (bad_place_of self.old) (place_of self.old) result }
        ensures place { place_of self.new ≡ place_after (place_of self.old) result }
        ensures same_bad_place { bad_place_of self.new ≡ bad_place_of self.old }
    {
        if self.calls.next_fails() {
            self.faults = self.faults.saturating_add(1);
            return Err(Failed);
        }
        match piece_at(self.bytes.as_slice(), self.place, self.bad_place) {
            Ok(piece) => {
                let count = fill(buffer, piece);
                self.place += count as u64;
                Ok(count)
            }
            Err(Failed) => {
                self.faults = self.faults.saturating_add(1);
                Err(Failed)
            }
        }
    }
}
