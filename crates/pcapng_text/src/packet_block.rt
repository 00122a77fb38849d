//! What packet blocks say, and the rules on them.

ghost use Rattle.std.specs.Prelude.{◌≡◌, ◌+◌, ◌<◌, ◌≤◌, ◌^◌, nat_lt, is_some, IfSome, IfOk, length, slice_get};
ghost use Rattle.std.specs.Option.{option_map};
ghost use Rattle.pcapng_text.specs.Packet.{enhanced_claim, frame_of, IsFrameSize, nanoseconds, packet_rules, simple_claim, snapped, time_of};
ghost use Rattle.pcapng_text.specs.Rule.{first_broken, RefusesAs};

use crate::endian::Endian;
use crate::interface_block::Interface;
use crate::options::padded;
use crate::rule::Rule;

/// The fewest and the most bytes of a packet that is taken.
const MIN_FRAME: usize = 14;

const MAX_FRAME: usize = 15_872;

/// What a packet block says of its packet.
#[derive(Clone, Copy)]
pub(crate) struct Claim {
    pub interface: u32,
    /// In the interface's units.
    pub time: u64,
    /// How many bytes of the packet there are.
    pub captured: u32,
    /// The place in the block where they begin.
    pub start: usize,
}

/// A packet's time in nanoseconds, and its bytes.
#[derive(Clone, Copy)]
pub(crate) struct Packet<'a> {
    pub timestamp: u64,
    pub frame: &'a [u8],
}

#[tactic(auto, unfolding(crate::specs::Packet::snapped))]
fn snapped(interface: Option<&Interface>, original: u32) -> u32
    ensures { result ≡ snapped (option_map (λ there. there.now) interface.entry) original }
{
    match interface {
        Some(there) if there.snap != 0 => original.min(there.snap),
        _ => original,
    }
}

#[tactic(auto, unfolding(crate::specs::Packet::simple_claim))]
pub(crate) fn simple_claim(endian: Endian, interfaces: &[Interface], block: &[u8]) -> Claim
    requires { 16 ≤ length block.now }
    ensures { result ≡ simple_claim endian interfaces.now block.now }
{
    Claim {
        interface: 0,
        time: 0,
        captured: snapped(interfaces.first(), endian.u32_at(block, 8)),
        start: 12,
    }
}

#[tactic(auto, unfolding(crate::specs::Packet::enhanced_claim))]
pub(crate) fn enhanced_claim(endian: Endian, block: &[u8]) -> Claim
    requires { 32 ≤ length block.now }
    ensures { result ≡ enhanced_claim endian block.now }
{
    Claim {
        interface: endian.u32_at(block, 8),
        time: (u64::from(endian.u32_at(block, 12)) << 32) + u64::from(endian.u32_at(block, 16)),
        captured: endian.u32_at(block, 20),
        start: 28,
    }
}

/// A time in nanoseconds; `None` where they don't fit.
#[tactic(auto, using(crate::proofs::Times::units), unfolding(crate::specs::Packet::nanoseconds))]
fn nanoseconds(resolution: u8, time: u64) -> Option<u64>
    ensures fits { is_some result ≡ nat_lt (nanoseconds resolution time) (2 ^ 64) }
    ensures value { IfSome result (λ timestamp. timestamp ≡ nanoseconds resolution time) }
{
    if resolution <= 9 {
        return time.checked_mul(10u64.pow(9 - u32::from(resolution)));
    }
    if resolution > 28 {
        return Some(0);
    }
    Some(time / 10u64.pow(u32::from(resolution) - 9))
}

fn interface_at(interfaces: &[Interface], number: u32) -> Option<Interface>
    ensures { result ≡ slice_get interfaces.now number }
{
    interfaces.get(number as usize).copied()
}

/// The packet of a block that is long enough for what it says of it.
#[tactic(auto, unfolding(crate::specs::Packet::packet_rules, crate::specs::Packet::time_of, crate::specs::Packet::frame_of))]
pub(crate) fn read_packet<'a>(
    interfaces: &[Interface],
    block: &'a [u8],
    claim: Claim,
) -> Result<Packet<'a>, Rule>
    requires long { claim.start + 4 ≤ length block.now }
    requires short { length block.now < 2 ^ 32 }
    ensures rules { RefusesAs result (first_broken (packet_rules interfaces.now block.now claim)) }
    ensures timestamp { IfOk result (λ packet. packet.timestamp ≡ time_of interfaces.now claim) }
    ensures frame { IfOk result (λ packet. packet.frame.now ≡ frame_of block.now claim) }
    ensures sized { IfOk result (λ packet. IsFrameSize (length packet.frame.now)) }
{
    let Some(interface) = interface_at(interfaces, claim.interface) else {
        return Err(Rule::NoInterface);
    };
    let captured = claim.captured as usize;
    if block.len() < claim.start + padded(captured) + 4 {
        return Err(Rule::DataPastEnd);
    }
    if captured < MIN_FRAME || captured > MAX_FRAME {
        return Err(Rule::FrameLength);
    }
    let Some(timestamp) = nanoseconds(interface.resolution, claim.time) else {
        return Err(Rule::LateTimestamp);
    };
    Ok(Packet {
        timestamp,
        frame: &block[claim.start..claim.start + captured],
    })
}
