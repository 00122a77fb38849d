ghost use Rattle.std.specs.Prelude.{◌≡◌};
ghost use Rattle.script_text.specs.Addresses.{decimal_octet, ip4_of};

use crate::numbers::number_within;
use crate::parts::{Part, first_part};
use byteorder::{BigEndian, ByteOrder};

#[tactic(auto, unfolding(crate::specs::Addresses::decimal_octet))]
fn decimal_octet(part: &[u8]) -> Option<u8>
    ensures { result ≡ decimal_octet part.now }
{
    let octet = number_within(0, 255, part)?;
    Some(octet as u8)
}

/// The number of an IPv4 address, four decimal numbers with dots between; its first byte is the highest.
#[tactic(auto, unfolding(crate::specs::Addresses::ip4_of))]
pub fn ip4_of(word: &[u8]) -> Option<u32>
    ensures { result ≡ ip4_of word.now }
{
    let Part { part: a, behind } = first_part(word, b'.');
    let Part { part: b, behind } = first_part(behind?, b'.');
    let Part { part: c, behind } = first_part(behind?, b'.');
    let Part { part: d, behind } = first_part(behind?, b'.');
    if behind.is_some() {
        return None;
    }
    let a = decimal_octet(a)?;
    let b = decimal_octet(b)?;
    let c = decimal_octet(c)?;
    let d = decimal_octet(d)?;
    Some(BigEndian::read_u32(&[a, b, c, d]))
}
