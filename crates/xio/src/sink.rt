ghost use Rattle.std.specs.Prelude.{◌≡◌, ℕ, ◌<◌, ◌≤◌, Bool, List, length, IsTrue, IfOk};
ghost use Rattle.xio.specs.Causes.{HasCause};
ghost use Rattle.xio.specs.Streams.{WritesTo, Flushes};

use crate::failed::Failed;

/// Bytes that go outside.
pub trait Sink {
    /// whether it tells what it holds
    ghost tells: { Bool };

    ghost held: { Self → List ℕ };

    /// how many bytes of what it holds are flushed
    ghost flushed: { Self → ℕ };

    /// how many calls failed, up to 2^64 - 1
    ghost faults: { Self → ℕ };

    /// what no call changes
    ghost Setting: { Type 0 } = { Unit {0} };

    ghost setting: { Self → Self.Setting };

    /// Takes the front of the piece and says how many bytes that is: at least one of a piece that isn't empty.
    fn write(&mut self, piece: &[u8]) -> Result<usize, Failed>
        ensures within { IfOk result (λ n. n ≤ length piece.now) }
        ensures some { IfOk result (λ n. 0 < length piece.now → 0 < n) }
        ensures bytes { IsTrue tells → WritesTo (held self.old) (held self.new) result piece.now }
        ensures same_flushed { IsTrue tells → flushed self.new ≡ flushed self.old }
        ensures cause { HasCause (faults self.old) (faults self.new) result }
        ensures same_setting { setting self.new ≡ setting self.old };

    /// At `Ok` all that it holds is flushed, and at `Err` as much as before.
    fn flush(&mut self) -> Result<(), Failed>
        ensures same_held { IsTrue tells → held self.new ≡ held self.old }
        ensures all { IsTrue tells → Flushes (held self.new) (flushed self.old) (flushed self.new) result }
        ensures cause { HasCause (faults self.old) (faults self.new) result }
        ensures same_setting { setting self.new ≡ setting self.old };
}
