ghost use Rattle.std.specs.Prelude.{◌≡◌, ◌+◌, ◌≤◌, length};
ghost use Rattle.pcapng_text.specs.Endian as number;

use byteorder::{BigEndian, ByteOrder, LittleEndian};

/// The order of a number's bytes.
#[derive(Clone, Copy, Debug, PartialEq, Eq)]
pub enum Endian {
    Little,
    Big,
}

impl Endian {
    /// The number in the two bytes from a place on.
    #[tactic(auto, unfolding(crate::specs::Endian::u16_at))]
    pub(crate) fn u16_at(self, bytes: &[u8], place: usize) -> u16
        requires { place + 2 ≤ length bytes.now }
        ensures { result ≡ number.u16_at self bytes.now place }
    {
        match self {
            Endian::Little => LittleEndian::read_u16(&bytes[place..]),
            Endian::Big => BigEndian::read_u16(&bytes[place..]),
        }
    }

    /// The number in the four bytes from a place on.
    #[tactic(auto, unfolding(crate::specs::Endian::u32_at))]
    pub(crate) fn u32_at(self, bytes: &[u8], place: usize) -> u32
        requires { place + 4 ≤ length bytes.now }
        ensures { result ≡ number.u32_at self bytes.now place }
    {
        match self {
            Endian::Little => LittleEndian::read_u32(&bytes[place..]),
            Endian::Big => BigEndian::read_u32(&bytes[place..]),
        }
    }
}
