ghost use Rattle.std.specs.Prelude.{◌≡◌, ℕ, ◌≤◌, Bool, List, length, IsTrue, IfOk};
ghost use Rattle.xio.specs.Causes.{HasCause};
ghost use Rattle.xio.specs.Streams.{ReadsFrom};

use crate::failed::Failed;

/// Bytes that come from outside, in pieces of the source's choice.
pub trait Source {
    /// whether it tells its rest
    ghost tells: { Bool };

    /// the bytes that are still to come
    ghost rest: { Self → List ℕ };

    /// how many calls failed, up to 2^64 - 1
    ghost faults: { Self → ℕ };

    /// what no call changes
    ghost Setting: { Type 0 } = { Unit {0} };

    ghost setting: { Self → Self.Setting };

    /// Fills the front of the buffer and says how many bytes that took; 0 is the end.
    fn read(&mut self, buffer: &mut [u8]) -> Result<usize, Failed>
        ensures within { IfOk result (λ n. n ≤ length buffer.new) }
        ensures bytes { IsTrue tells → ReadsFrom (rest self.old) (rest self.new) result buffer.new }
        ensures cause { HasCause (faults self.old) (faults self.new) result }
        ensures same_setting { setting self.new ≡ setting self.old };
}
