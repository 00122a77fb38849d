//! IPv6 and its extension headers (RFC 8200).

ghost use Rattle.std.specs.Prelude.{◌≡◌, ◌≤◌, length, ◌↔◌, IsTrue, IsSome, IfSome};
ghost use Rattle.net_headers.specs.Ipv6.{is_extension, extension_length, is_later_fragment, ports_behind, ipv6_net, ipv6_ports};

use crate::bytes::{u16_at, u128_at};
use crate::fields::{Net, Ports};
use crate::transport;

const HEADER_LEN: usize = 40;

const NEXT_HEADER: usize = 6;

const SOURCE: usize = 8;

const TARGET: usize = 24;

const HOP_BY_HOP: u8 = 0;

const ROUTING: u8 = 43;

const FRAGMENT: u8 = 44;

const AUTHENTICATION: u8 = 51;

const DESTINATION: u8 = 60;

const MOBILITY: u8 = 135;

const MOST_EXTENSIONS: usize = 6;

/// The addresses and the ports of a packet.
#[tactic(auto, unfolding(crate::specs::Ipv6::ipv6_net, crate::specs::Ipv6::ipv6_ports))]
pub fn read(packet: &[u8]) -> (Net, Ports)
    ensures net { result.0 ≡ ipv6_net packet.now }
    ensures ports { result.1 ≡ ipv6_ports packet.now }
{
    if packet.len() < HEADER_LEN {
        return (Net::Cut, Ports::Absent);
    }
    let net = Net::V6 {
        source: u128_at(packet, SOURCE),
        target: u128_at(packet, TARGET),
    };
    (
        net,
        ports_behind(packet[NEXT_HEADER], &packet[HEADER_LEN..]),
    )
}

/// The ports behind the extension headers, the first of which `next_header` announces.
#[tactic(auto, using(crate::proofs::Walk::walk))]
fn ports_behind(next_header: u8, payload: &[u8]) -> Ports
    ensures { result ≡ ports_behind 6 next_header payload.now }
{
    let mut next_header = next_header;
    let mut rest = payload;
    for _ in 0..MOST_EXTENSIONS {
        let Some(length) = extension_len(next_header, rest) else {
            break;
        };
        if rest.len() < length {
            return Ports::Cut;
        }
        if is_later_fragment(next_header, rest) {
            return Ports::Absent;
        }
        next_header = rest[0];
        rest = &rest[length..];
    }
    transport::ports(next_header, rest)
}

/// How many bytes the extension header says that it takes, or `None` where what is announced is none.
#[tactic(auto, unfolding(crate::specs::Ipv6::is_extension, crate::specs::Ipv6::extension_length))]
fn extension_len(next_header: u8, header: &[u8]) -> Option<usize>
    ensures some { IsSome result ↔ IsTrue (is_extension next_header) }
    ensures length { IfSome result (λ length. length ≡ extension_length next_header header.now) }
    ensures least { IfSome result (λ length. 8 ≤ length) }
{
    // A header that ends before its length isn't whole, whatever that length is.
    let length = usize::from(header.get(1).copied().unwrap_or(0));
    match next_header {
        HOP_BY_HOP | ROUTING | DESTINATION | MOBILITY => Some((length + 1) * 8),
        AUTHENTICATION => Some((length + 2) * 4),
        FRAGMENT => Some(8),
        _ => None,
    }
}

/// Whether the header is that of a fragment behind the first.
#[tactic(auto, unfolding(crate::specs::Ipv6::is_later_fragment))]
fn is_later_fragment(next_header: u8, header: &[u8]) -> bool
    requires { 8 ≤ length header.now }
    ensures { result ≡ is_later_fragment next_header header.now }
{
    next_header == FRAGMENT && u16_at(header, 2) / 8 != 0
}
