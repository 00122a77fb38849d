ghost use Rattle.std.specs.Prelude.{◌≡◌};
ghost use Rattle.pcapng_text.specs.declared.stop.Stop.TheVariants.{Failed as Fault, OutOfMemory as NoMemory};

use std::alloc::AllocError;
use xio::Failed;

/// Why fewer bytes came than a block has.
#[derive(Clone, Copy)]
pub(crate) enum Stop {
    Failed,
    OutOfMemory,
}

impl From<Failed> for Stop {
    ghost from_gives = { λ _ stop. stop ≡ Fault };

    fn from(_: Failed) -> Self {
        Stop::Failed
    }
}

impl From<AllocError> for Stop {
    ghost from_gives = { λ _ stop. stop ≡ NoMemory };

    fn from(_: AllocError) -> Self {
        Stop::OutOfMemory
    }
}
