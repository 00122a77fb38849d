ghost use Rattle.std.specs.Prelude.{◌≡◌, ◌≢◌};
ghost use Rattle.clap.specs.Values.{kind_of};
ghost use Rattle.clap.specs.declared.error.kind.ErrorKind.TheVariants.{OutOfMemory as NoMemoryKind};
ghost use Rattle.command_line.specs.declared.end.WordsEnd.TheVariants.{NotTaken as Refused, OutOfMemory as NoMemory};

use clap::Error;
use clap::error::ErrorKind;
use std::alloc::AllocError;

/// Why words name no files.
#[derive(Clone, Copy, Debug, PartialEq, Eq)]
pub enum WordsEnd {
    /// The words aren't those of the program.
    NotTaken,
    OutOfMemory,
}

impl From<AllocError> for WordsEnd {
    ghost from_gives = { λ _ end. end ≡ NoMemory };

    fn from(_: AllocError) -> Self {
        WordsEnd::OutOfMemory
    }
}

impl From<Error> for WordsEnd {
    ghost from_gives = { λ error end. end ≡ Refused → kind_of error ≢ NoMemoryKind };

    fn from(error: Error) -> Self {
        match error.kind() {
            ErrorKind::OutOfMemory => WordsEnd::OutOfMemory,
            _ => WordsEnd::NotTaken,
        }
    }
}
