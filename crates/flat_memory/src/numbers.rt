ghost use Rattle.std.specs.Prelude.{◌≡◌, ◌+◌, ◌≤◌, length};
ghost use Rattle.flat_memory.specs.Numbers.{size_of, number_in, stored, with_bytes};

use bpf_insn::Size;
use byteorder::{ByteOrder, LittleEndian};

/// The number of this size at a place, little endian.
#[inline]
pub fn number(bytes: &[u8], place: usize, size: Size) -> u64
    requires { place + size_of size ≤ length bytes.now }
    ensures { result ≡ number_in bytes.now place (size_of size) }
{
    match size {
        Size::Byte => bytes[place] as u64,
        Size::Half => LittleEndian::read_u16(&bytes[place..]) as u64,
        Size::Word => LittleEndian::read_u32(&bytes[place..]) as u64,
        Size::Double => LittleEndian::read_u64(&bytes[place..]),
    }
}

/// Writes the low bytes of a value at a place, as many as the size has, little endian.
#[inline]
pub fn put_number(bytes: &mut [u8], place: usize, size: Size, value: u64)
    requires { place + size_of size ≤ length bytes.old }
    ensures { bytes.new ≡ with_bytes bytes.old place (stored size value) }
{
    let low = value.to_le_bytes();
    match size {
        Size::Byte => bytes[place] = low[0],
        Size::Half => bytes[place..place + 2].copy_from_slice(&low[..2]),
        Size::Word => bytes[place..place + 4].copy_from_slice(&low[..4]),
        Size::Double => bytes[place..place + 8].copy_from_slice(&low),
    }
}
