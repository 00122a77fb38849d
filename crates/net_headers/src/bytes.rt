//! Whole numbers in network byte order, the most significant byte first.

ghost use Rattle.std.specs.Prelude.{◌≡◌, ◌+◌, ◌≤◌, length};
ghost use Rattle.net_headers.specs.Bytes.{number_at};

/// The 16 bits at a place.
#[tactic(auto, unfolding(crate::specs::Bytes::number_at))]
pub fn u16_at(bytes: &[u8], place: usize) -> u16
    requires { place + 2 ≤ length bytes.now }
    ensures { result ≡ number_at bytes.now place 2 }
{
    u16::from_be_bytes([bytes[place], bytes[place + 1]])
}

/// The 32 bits at a place.
#[tactic(auto, unfolding(crate::specs::Bytes::number_at))]
pub fn u32_at(bytes: &[u8], place: usize) -> u32
    requires { place + 4 ≤ length bytes.now }
    ensures { result ≡ number_at bytes.now place 4 }
{
    u32::from_be_bytes([
        bytes[place],
        bytes[place + 1],
        bytes[place + 2],
        bytes[place + 3],
    ])
}

/// The 48 bits at a place.
#[tactic(auto, unfolding(crate::specs::Bytes::number_at))]
pub fn u48_at(bytes: &[u8], place: usize) -> u64
    requires { place + 6 ≤ length bytes.now }
    ensures { result ≡ number_at bytes.now place 6 }
{
    u64::from(u16_at(bytes, place)) << 32 | u64::from(u32_at(bytes, place + 2))
}

/// The 64 bits at a place.
#[tactic(auto, unfolding(crate::specs::Bytes::number_at))]
fn u64_at(bytes: &[u8], place: usize) -> u64
    requires { place + 8 ≤ length bytes.now }
    ensures { result ≡ number_at bytes.now place 8 }
{
    u64::from(u32_at(bytes, place)) << 32 | u64::from(u32_at(bytes, place + 4))
}

/// The 128 bits at a place.
#[tactic(auto, unfolding(crate::specs::Bytes::number_at))]
pub fn u128_at(bytes: &[u8], place: usize) -> u128
    requires { place + 16 ≤ length bytes.now }
    ensures { result ≡ number_at bytes.now place 16 }
{
    u128::from(u64_at(bytes, place)) << 64 | u128::from(u64_at(bytes, place + 8))
}
