ghost use Rattle.std.specs.Prelude.{◌≡◌};

/// What is wrong with a block, by the number that is printed. A block breaks the first of these that is broken.
#[derive(Clone, Copy, Debug, PartialEq, Eq)]
pub enum Rule {
    /// Fewer than 12 bytes remain, also at the very start.
    ShortRest = 1,
    /// The first block is no section header.
    NoSection = 2,
    /// A section header's magic is in neither byte order.
    BadMagic = 3,
    /// The length is below 12, no multiple of 4, or above 16,777,216.
    BadLength = 4,
    /// Fewer bytes remain than the length.
    CutBlock = 5,
    /// The length behind the body is another than the one in front of it.
    LengthsDiffer = 6,
    /// A section header is shorter than 28 bytes, or of another major version than 1.
    BadSection = 7,
    /// An interface block is shorter than 20 bytes.
    ShortInterface = 8,
    /// The link type isn't Ethernet.
    LinkType = 9,
    /// An interface's option passes the body's end, or its first `if_tsresol` hasn't one byte.
    BadOption = 10,
    /// The first `if_tsresol` gives a power of 2.
    BinaryResolution = 11,
    /// An enhanced packet block is shorter than 32 bytes, or a simple one shorter than 16.
    ShortPacket = 12,
    /// The section has no such interface.
    NoInterface = 13,
    /// The padded data pass the body's end.
    DataPastEnd = 14,
    /// The captured length isn't 14 to 15,872.
    FrameLength = 15,
    /// The timestamp is above 2^64 - 1 nanoseconds.
    LateTimestamp = 16,
}

impl Rule {
    ghost use Rattle.pcapng_text.specs.Rule.{number_of};

    /// The number that is printed, from 1.
    pub fn number(self) -> u8
        ensures { result ≡ number_of self }
    {
        self as u8
    }
}
