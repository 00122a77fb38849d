ghost use Rattle.std.specs.Prelude.{◌≡◌};
ghost use Rattle.dump_capture.specs.declared.put_end.PutEnd.TheVariants.{OutOfMemory as NoMemory};

use lists::OutOfMemory;
use std::alloc::AllocError;

/// Why a packet was not captured.
#[derive(Clone, Copy, Debug, PartialEq, Eq)]
pub enum PutEnd {
    /// The sink took this many bytes of the call's blocks before its fault.
    WriteFault { written: u64 },
    OutOfMemory,
}

impl From<OutOfMemory> for PutEnd {
    ghost from_gives = { λ _ end. end ≡ NoMemory };

    fn from(_: OutOfMemory) -> Self {
        PutEnd::OutOfMemory
    }
}

impl From<AllocError> for PutEnd {
    ghost from_gives = { λ _ end. end ≡ NoMemory };

    fn from(_: AllocError) -> Self {
        PutEnd::OutOfMemory
    }
}
