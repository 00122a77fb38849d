ghost use Rattle.std.specs.Prelude.{◌≡◌, ◌≢◌, ℕ, ◌<◌, ◌≤◌, Bool, length, IsTrue, IfOk};
ghost use Rattle.xio.specs.Handles.{Handle, Closed, Opened, Made, GivesHandle, set_at};
ghost use Rattle.xio.specs.Streams.{ReadsFrom};

use crate::failed::Failed;
use lists::OutOfMemory;

/// Why no file was opened or made.
#[derive(Clone, Copy, Debug, PartialEq, Eq)]
pub enum FileFault {
    Failed,
    OutOfMemory,
}

impl From<OutOfMemory> for FileFault {
    ghost use Rattle.xio.specs.declared.files.FileFault.TheVariants as fault;

    ghost from_gives = { λ _ end. end ≡ fault.OutOfMemory };

    fn from(_: OutOfMemory) -> Self {
        FileFault::OutOfMemory
    }
}

/// Files by name: opened ones are read from their first byte on, made ones are written from empty.
/// A file number is one that `open_file` or `make_file` gave and that isn't closed.
pub trait Files {
    ghost use Rattle.xio.specs.Causes.{HasCause, HasFileCause};
    ghost use Rattle.xio.specs.Told.{Told, rest_of, after_open, after_make, after_read, after_write, after_flush};

    /// whether it tells its contents, its calls and what is flushed
    ghost tells: { Bool };

    ghost told: { Self → Told };

    /// how each number stands
    ghost handles: { Self → ℕ → Handle };

    /// how many calls of `open_file` and `read` failed, up to 2^64 - 1
    ghost read_faults: { Self → ℕ };

    /// how many calls of `make_file`, `write` and `flush` failed, up to 2^64 - 1
    ghost write_faults: { Self → ℕ };

    fn open_file(&mut self, name: &str) -> Result<u32, FileFault>
        ensures handle { GivesHandle Opened (handles self.old) (handles self.new) result }
        ensures told_after { IsTrue tells → told self.new ≡ after_open (told self.old) name.now result }
        ensures cause { HasFileCause (read_faults self.old) (read_faults self.new) result }
        ensures same_write_faults { write_faults self.new ≡ write_faults self.old };

    /// Makes the named file, or empties it.
    fn make_file(&mut self, name: &str) -> Result<u32, FileFault>
        ensures handle { GivesHandle Made (handles self.old) (handles self.new) result }
        ensures told_after { IsTrue tells → told self.new ≡ after_make (told self.old) name.now result }
        ensures cause { HasFileCause (write_faults self.old) (write_faults self.new) result }
        ensures same_read_faults { read_faults self.new ≡ read_faults self.old };

    /// As `Source::read`, of an opened file.
    fn read(&mut self, file: u32, buffer: &mut [u8]) -> Result<usize, Failed>
        requires { handles self.old file ≡ Opened }
        ensures within { IfOk result (λ n. n ≤ length buffer.new) }
        ensures bytes { IsTrue tells → ReadsFrom (rest_of (told self.old) file) (rest_of (told self.new) file) result buffer.new }
        ensures told_after { IsTrue tells → told self.new ≡ after_read (told self.old) file result }
        ensures same_handles { handles self.new ≡ handles self.old }
        ensures cause { HasCause (read_faults self.old) (read_faults self.new) result }
        ensures same_write_faults { write_faults self.new ≡ write_faults self.old };

    /// As `Sink::write`, to a made file.
    fn write(&mut self, file: u32, piece: &[u8]) -> Result<usize, Failed>
        requires { handles self.old file ≡ Made }
        ensures within { IfOk result (λ n. n ≤ length piece.now) }
        ensures some { IfOk result (λ n. 0 < length piece.now → 0 < n) }
        ensures told_after { IsTrue tells → told self.new ≡ after_write (told self.old) file piece.now result }
        ensures same_handles { handles self.new ≡ handles self.old }
        ensures cause { HasCause (write_faults self.old) (write_faults self.new) result }
        ensures same_read_faults { read_faults self.new ≡ read_faults self.old };

    /// As `Sink::flush`, of a made file.
    fn flush(&mut self, file: u32) -> Result<(), Failed>
        requires { handles self.old file ≡ Made }
        ensures told_after { IsTrue tells → told self.new ≡ after_flush (told self.old) file result }
        ensures same_handles { handles self.new ≡ handles self.old }
        ensures cause { HasCause (write_faults self.old) (write_faults self.new) result }
        ensures same_read_faults { read_faults self.new ≡ read_faults self.old };

    fn close(&mut self, file: u32)
        requires { handles self.old file ≢ Closed }
        ensures handle { handles self.new ≡ set_at (handles self.old) file Closed }
        ensures same_told { IsTrue tells → told self.new ≡ told self.old }
        ensures same_read_faults { read_faults self.new ≡ read_faults self.old }
        ensures same_write_faults { write_faults self.new ≡ write_faults self.old };
}
