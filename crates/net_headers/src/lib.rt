//! The header fields of a frame that a filter asks for: Ethernet with VLAN tags, IPv4, IPv6 with its extension
//! headers, TCP and UDP. Nothing here takes memory.
#![tactic(auto)]

ghost use Rattle.std.specs.Prelude.{◌≡◌, ◌<◌, ◌↔◌, length, IsErr, IfOk};
ghost use Rattle.net_headers.specs.Headers.{headers_of};

mod bytes;
mod ethernet;
mod fields;
mod ipv4;
mod ipv6;
pub mod laws;
#[cfg(test)]
mod tests;
mod transport;

use bytes::u48_at;
pub use fields::{Headers, Net, Ports, Short};

/// The Ethernet type of IPv4 (RFC 894).
const IPV4: u16 = 0x0800;
/// The Ethernet type of IPv6 (RFC 2464 §3).
const IPV6: u16 = 0x86DD;

/// The header fields of a frame, the first byte first.
#[tactic(auto, unfolding(crate::specs::Headers::headers_of, crate::specs::Headers::net_of, crate::specs::Headers::ports_of))]
pub fn headers(frame: &[u8]) -> Result<Headers, Short>
    ensures short { IsErr result ↔ (length frame.now < 14) }
    ensures fields { IfOk result (λ fields. fields ≡ headers_of frame.now) }
{
    if frame.len() < ethernet::HEADER_LEN {
        return Err(Short);
    }
    let payload = ethernet::read(frame);
    let (net, ports) = match payload.ether_type {
        IPV4 => ipv4::read(payload.packet),
        IPV6 => ipv6::read(payload.packet),
        _ if payload.has_cut_tag => (Net::Cut, Ports::Absent),
        _ => (Net::Absent, Ports::Absent),
    };
    Ok(Headers {
        source: u48_at(frame, ethernet::SOURCE),
        target: u48_at(frame, ethernet::TARGET),
        ether_type: payload.ether_type,
        net,
        ports,
    })
}
