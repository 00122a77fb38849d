//! The ports of TCP (RFC 9293) and UDP (RFC 768).

ghost use Rattle.std.specs.Prelude.{◌≡◌};
ghost use Rattle.net_headers.specs.Transport.{transport_ports};

use crate::bytes::u16_at;
use crate::fields::Ports;

const TCP: u8 = 6;

const UDP: u8 = 17;

const TCP_HEADER_LEN: usize = 20;

const UDP_HEADER_LEN: usize = 8;

const SOURCE: usize = 0;

const TARGET: usize = 2;

/// The ports of what an IP packet of this protocol carries.
#[tactic(auto, unfolding(crate::specs::Transport::transport_ports))]
pub fn ports(protocol: u8, payload: &[u8]) -> Ports
    ensures { result ≡ transport_ports protocol payload.now }
{
    match protocol {
        TCP if payload.len() < TCP_HEADER_LEN => Ports::Cut,
        TCP => Ports::Tcp {
            source: u16_at(payload, SOURCE),
            target: u16_at(payload, TARGET),
        },
        UDP if payload.len() < UDP_HEADER_LEN => Ports::Cut,
        UDP => Ports::Udp {
            source: u16_at(payload, SOURCE),
            target: u16_at(payload, TARGET),
        },
        _ => Ports::Absent,
    }
}
