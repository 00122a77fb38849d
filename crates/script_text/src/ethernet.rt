ghost use Rattle.std.specs.Prelude.{◌≡◌, ◌≢◌, [], ◌∷◌, length, Some, IfSome, IfNone, option_map};
ghost use Rattle.script_text.specs.Addresses.{octets_of, ether_of};

use crate::hexadecimal::octet_of;
use byteorder::{BigEndian, ByteOrder};

/// The octet in front of a colon, and what stands behind the colon.
fn split_octet(text: &[u8]) -> Option<(u8, &[u8])>
    ensures found { IfSome result (λ split. octets_of text.now ≡ option_map (λ more. split.0 ∷ more) (octets_of split.1.now)) }
    ensures none { IfNone result (IfSome (octets_of text.now) (λ octets. length octets ≡ 1)) }
{
    let [high, low, b':', behind @ ..] = text else {
        return None;
    };
    let octet = octet_of(*high, *low)?;
    Some((octet, behind))
}

/// The octet of a text that is no more than that.
fn only_octet(text: &[u8]) -> Option<u8>
    ensures found { IfSome result (λ octet. octets_of text.now ≡ Some (octet ∷ [])) }
    ensures none { IfNone result (IfSome (octets_of text.now) (λ octets. length octets ≢ 1)) }
{
    let [high, low] = text else {
        return None;
    };
    octet_of(*high, *low)
}

/// The number of an Ethernet address, six pairs of hexadecimal digits with colons between; its first byte is the highest.
pub fn ether_of(word: &[u8]) -> Option<u64>
    ensures { result ≡ ether_of word.now }
{
    let mut octets = [0; 6];
    let mut rest = word;
    for place in 0..5 {
        let (octet, behind) = split_octet(rest)?;
        octets[place] = octet;
        rest = behind;
    }
    octets[5] = only_octet(rest)?;
    Some(BigEndian::read_u48(&octets))
}
