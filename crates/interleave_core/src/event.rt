ghost use Rattle.std.specs.Prelude.{◌≡◌};
ghost use Rattle.interleave_core.specs.declared.event.StepEnd.TheVariants.{OutOfMemory as NoMemory};

use lists::OutOfMemory;
use std::alloc::AllocError;
use xdp_state::{Command, Packet};

/// What may come next in a world.
#[derive(Debug, Drop)]
pub enum Event {
    /// A command is answered, and published where it is accepted.
    Command(Command),
    /// A packet enters the queue of a processor.
    HandIn { processor: u32, packet: Packet },
    /// A processor carries the first packet of its queue.
    Carry { processor: u32 },
    /// The phase ends.
    Barrier,
}

/// Why an event did not come.
#[derive(Clone, Copy, Debug, PartialEq, Eq)]
pub enum StepEnd {
    /// The processor has no packet to carry.
    EmptyQueue { processor: u32 },
    /// The phase can't end: of the processors whose packets wait, this is the first.
    QueueLeft { processor: u32 },
    OutOfMemory,
}

impl From<OutOfMemory> for StepEnd {
    ghost from_gives = { λ _ end. end ≡ NoMemory };

    fn from(_: OutOfMemory) -> Self {
        StepEnd::OutOfMemory
    }
}

impl From<AllocError> for StepEnd {
    ghost from_gives = { λ _ end. end ≡ NoMemory };

    fn from(_: AllocError) -> Self {
        StepEnd::OutOfMemory
    }
}
