ghost use Rattle.std.specs.Prelude.{◌≡◌, ◌||◌, [], true, not, length, is_err, IfOk};
ghost use Rattle.xio.specs.CallPlan.{next_call, is_failing};
ghost use Rattle.xio.specs.Causes.{HasCause};
ghost use Rattle.xio.specs.Room.{fits};
ghost use Rattle.xio.specs.Streams.{WritesTo, Flushes};

use crate::failed::Failed;
use crate::memory::calls::Calls;
use crate::room::Room;
use crate::sink::Sink;
use lists::OutOfMemory;
use std::alloc::Global;

/// A sink in memory. It takes each piece whole, and fails at the calls that are to fail and where its room is passed.
#[derive(Debug, Drop)]
pub struct MemorySink {
    room: Room,
    flushed: usize,
    faults: u64,
    calls: Calls,
}

impl MemorySink {
    ghost use Rattle.xio.specs.MemorySink.{calls_of, capacity_of};

    /// Takes room for `capacity` bytes. `failing` are the calls that are to fail, numbered from 1.
    pub fn new(alloc: Global, capacity: u32, failing: &[u32]) -> Result<Self, OutOfMemory>
        ensures empty { IfOk result (λ sink. ⟦<MemorySink as Sink>⟧.held sink ≡ []) }
        ensures unflushed { IfOk result (λ sink. ⟦<MemorySink as Sink>⟧.flushed sink ≡ 0) }
        ensures faultless { IfOk result (λ sink. ⟦<MemorySink as Sink>⟧.faults sink ≡ 0) }
        ensures calls { IfOk result (λ sink. calls_of sink ≡ record { failing = failing.now; made = 0 }) }
        ensures capacity { IfOk result (λ sink. capacity_of sink ≡ capacity) }
    {
        Ok(MemorySink {
            room: Room::new(alloc, capacity as usize)?,
            flushed: 0,
            faults: 0,
            calls: Calls::new(alloc, failing)?,
        })
    }

    pub fn bytes(&self) -> &[u8]
        ensures { result.now ≡ ⟦<MemorySink as Sink>⟧.held self.now }
    {
        self.room.bytes()
    }
}

impl Sink for MemorySink {
    ghost use Rattle.xio.specs.MemorySink.{calls_of, capacity_of, held_by, flushed_of, faults_of};

    ghost tells = { true };

    ghost held = { held_by };

    ghost flushed = { flushed_of };

    ghost faults = { faults_of };

    ghost setting = { λ _. tt };

    fn write(&mut self, piece: &[u8]) -> Result<usize, Failed>
        ensures whole { IfOk result (λ n. n ≡ length piece.now) }
        ensures bytes { WritesTo (held_by self.old) (held_by self.new) result piece.now }
        ensures same_flushed { flushed_of self.new ≡ flushed_of self.old }
        ensures cause { HasCause (faults_of self.old) (faults_of self.new) result }
        ensures fails { is_err result ≡ (is_failing (calls_of self.new) || not (fits (capacity_of self.old) (held_by self.old) piece.now)) }
        ensures counted { calls_of self.new ≡ next_call (calls_of self.old) }
        ensures same_capacity { capacity_of self.new ≡ capacity_of self.old }
    {
        if self.calls.next_fails() || !self.room.put(piece) {
            self.faults = self.faults.saturating_add(1);
            return Err(Failed);
        }
        Ok(piece.len())
    }

    fn flush(&mut self) -> Result<(), Failed>
        ensures same_held { held_by self.new ≡ held_by self.old }
        ensures all { Flushes (held_by self.new) (flushed_of self.old) (flushed_of self.new) result }
        ensures cause { HasCause (faults_of self.old) (faults_of self.new) result }
        ensures fails { is_err result ≡ is_failing (calls_of self.new) }
        ensures counted { calls_of self.new ≡ next_call (calls_of self.old) }
        ensures same_capacity { capacity_of self.new ≡ capacity_of self.old }
    {
        if self.calls.next_fails() {
            self.faults = self.faults.saturating_add(1);
            return Err(Failed);
        }
        self.flushed = self.room.bytes().len();
        Ok(())
    }
}
