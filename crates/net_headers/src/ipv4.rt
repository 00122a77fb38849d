//! IPv4 (RFC 791).

ghost use Rattle.std.specs.Prelude.{◌≡◌, ◌≤◌, length, if◌then◌else◌, Option, Some, None};
ghost use Rattle.net_headers.specs.Ipv4.{has_whole_header, header_length, fragment_offset, ipv4_net, ipv4_ports};

use crate::bytes::{u16_at, u32_at};
use crate::fields::{Net, Ports};
use crate::transport;

/// The length of a header without options.
const LEAST_HEADER_LEN: usize = 20;

const WORD_LEN: usize = 4;

const FRAGMENT: usize = 6;

const PROTOCOL: usize = 9;

const SOURCE: usize = 12;

const TARGET: usize = 16;

/// The addresses and the ports of a packet.
#[tactic(auto, unfolding(crate::specs::Ipv4::ipv4_net, crate::specs::Ipv4::ipv4_ports))]
pub fn read(packet: &[u8]) -> (Net, Ports)
    ensures net { result.0 ≡ ipv4_net packet.now }
    ensures ports { result.1 ≡ ipv4_ports packet.now }
{
    let Some(header_len) = header_len(packet) else {
        return (Net::Cut, Ports::Absent);
    };
    let net = Net::V4 {
        source: u32_at(packet, SOURCE),
        target: u32_at(packet, TARGET),
    };
    let ports = if fragment_offset(packet) == 0 {
        transport::ports(packet[PROTOCOL], &packet[header_len..])
    } else {
        Ports::Absent
    };
    (net, ports)
}

/// The length of the header with its options, where it is whole.
fn header_len(packet: &[u8]) -> Option<usize>
    ensures { result ≡ (if has_whole_header packet.now then Some (header_length packet.now) else None) }
{
    if packet.len() < LEAST_HEADER_LEN {
        return None;
    }
    let header_len = usize::from(packet[0] % 16) * WORD_LEN;
    if header_len < LEAST_HEADER_LEN || packet.len() < header_len {
        return None;
    }
    Some(header_len)
}

/// Where in its datagram the fragment begins, in units of 8 bytes.
fn fragment_offset(packet: &[u8]) -> u16
    requires { 20 ≤ length packet.now }
    ensures { result ≡ fragment_offset packet.now }
{
    u16_at(packet, FRAGMENT) & 0x1FFF
}
