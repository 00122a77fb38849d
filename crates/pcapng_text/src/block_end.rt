ghost use Rattle.std.specs.Prelude.{◌≡◌};

use crate::rule::Rule;
use crate::stop::Stop;

/// Why no further packet was read.
#[derive(Clone, Copy, Debug, PartialEq, Eq)]
pub enum BlockEnd {
    /// The block at this place from the input's first byte breaks the rule, and none before it.
    BadCapture { offset: u64, rule: Rule },
    ReadFault,
    /// A block would end past the limit.
    TooLarge { limit: u64 },
    OutOfMemory,
}

impl From<Stop> for BlockEnd {
    ghost use Rattle.pcapng_text.specs.Reading.{end_of};

    ghost from_gives = { λ stop end. end ≡ end_of stop };

    fn from(stop: Stop) -> Self {
        match stop {
            Stop::Failed => BlockEnd::ReadFault,
            Stop::OutOfMemory => BlockEnd::OutOfMemory,
        }
    }
}
