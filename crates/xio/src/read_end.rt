ghost use Rattle.std.specs.Prelude.{◌≡◌};
ghost use Rattle.xio.specs.declared.read_end.ReadEnd.TheVariants.{ReadFault, OutOfMemory};

use crate::failed::Failed;
use crate::files::FileFault;

/// Why a source was not read to its end.
#[derive(Clone, Copy, Debug, PartialEq, Eq)]
pub enum ReadEnd {
    ReadFault,
    /// More than `limit` bytes stand there.
    TooLarge { limit: u64 },
    OutOfMemory,
}

impl From<Failed> for ReadEnd {
    ghost from_gives = { λ _ end. end ≡ ReadFault };

    fn from(_: Failed) -> Self {
        ReadEnd::ReadFault
    }
}

impl From<lists::OutOfMemory> for ReadEnd {
    ghost from_gives = { λ _ end. end ≡ OutOfMemory };

    fn from(_: lists::OutOfMemory) -> Self {
        ReadEnd::OutOfMemory
    }
}

impl From<FileFault> for ReadEnd {
    ghost use Rattle.xio.specs.ReadFile.{end_of};

    ghost from_gives = { λ fault end. end ≡ end_of fault };

    fn from(fault: FileFault) -> Self {
        match fault {
            FileFault::Failed => ReadEnd::ReadFault,
            FileFault::OutOfMemory => ReadEnd::OutOfMemory,
        }
    }
}
