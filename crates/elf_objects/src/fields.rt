//! Fields of a file: numbers at byte places, the least byte first.

ghost use Rattle.std.specs.Prelude.{◌≡◌, ◌+◌, ◌≤◌, length};
ghost use Rattle.elf_objects.specs.Fields.{u16_at, u32_at, u64_at};

use byteorder::{ByteOrder, LittleEndian};

#[tactic(auto, unfolding(crate::specs::Fields::u16_at))]
pub(crate) fn u16_at(file: &[u8], place: usize) -> u16
    requires { place + 2 ≤ length file.now }
    ensures { result ≡ u16_at file.now place }
{
    LittleEndian::read_u16(&file[place..])
}

#[tactic(auto, unfolding(crate::specs::Fields::u32_at))]
pub(crate) fn u32_at(file: &[u8], place: usize) -> u32
    requires { place + 4 ≤ length file.now }
    ensures { result ≡ u32_at file.now place }
{
    LittleEndian::read_u32(&file[place..])
}

#[tactic(auto, unfolding(crate::specs::Fields::u64_at))]
pub(crate) fn u64_at(file: &[u8], place: usize) -> u64
    requires { place + 8 ≤ length file.now }
    ensures { result ≡ u64_at file.now place }
{
    LittleEndian::read_u64(&file[place..])
}
