//! What is known of a section: its byte order and its interfaces so far.

ghost use Rattle.std.specs.Prelude.{◌≡◌, ◌+◌, ◌%◌, ◌<◌, ◌≤◌, ◌^◌, ◌++◌, [], ◌∷◌, IfOk, IfSome, length};
ghost use Rattle.pcapng_text.specs.Section as section;
ghost use Rattle.pcapng_text.specs.Packet.{enhanced_claim, simple_claim, IsFrameSize};
ghost use Rattle.pcapng_text.specs.Rule.{first_broken, RefusesAs};

use crate::endian::Endian;
use crate::incoming::Incoming;
use crate::interface_block::{Interface, read_interface};
use crate::packet_block::{Claim, enhanced_claim, read_packet, simple_claim};
use crate::refusal::Refusal;
use crate::rule::Rule;
use crate::start::SECTION_HEADER;
use lists::{Bytes, List};
use std::alloc::Global;

const INTERFACE_DESCRIPTION: u32 = 1;

const SIMPLE_PACKET: u32 = 3;

const ENHANCED_PACKET: u32 = 6;

/// Tests a section header.
#[tactic(auto, unfolding(crate::specs::Section::section_rules))]
fn check_section(endian: Endian, block: &[u8]) -> Result<(), Rule>
    ensures { RefusesAs result (first_broken (section.section_rules endian block.now)) }
{
    if block.len() < 28 || endian.u16_at(block, 12) != 1 {
        return Err(Rule::BadSection);
    }
    Ok(())
}

/// A packet block's packet, with its bytes copied.
#[tactic(auto, unfolding(crate::specs::Section::packet_outcome))]
fn take_packet(
    alloc: Global,
    interfaces: &[Interface],
    block: &[u8],
    claim: Claim,
) -> Result<Option<Incoming>, Refusal>
    requires long { claim.start + 4 ≤ length block.now }
    requires short { length block.now < 2 ^ 32 }
    ensures answer { section.Answers (section.packet_outcome interfaces.now block.now claim) interfaces.now result }
    ensures sized { IfOk result (λ packet. IfSome packet (λ packet. IsFrameSize (length packet.frame))) }
{
    match read_packet(interfaces, block, claim) {
        Err(rule) => Err(Refusal::Broken(rule)),
        Ok(packet) => {
            let mut frame = Bytes::new(alloc);
            frame.append(packet.frame)?;
            Ok(Some(Incoming {
                timestamp: packet.timestamp,
                frame,
            }))
        }
    }
}

/// The packet of a simple packet block.
#[tactic(auto, unfolding(crate::specs::Section::packet_outcome, crate::specs::Packet::packet_rules, crate::specs::Packet::simple_claim))]
fn take_simple(
    alloc: Global,
    endian: Endian,
    interfaces: &[Interface],
    block: &[u8],
) -> Result<Option<Incoming>, Refusal>
    requires { length block.now < 2 ^ 32 }
    ensures answer { section.Answers (section.packet_outcome interfaces.now block.now (simple_claim endian interfaces.now block.now)) interfaces.now result }
    ensures sized { IfOk result (λ packet. IfSome packet (λ packet. IsFrameSize (length packet.frame))) }
{
    if block.len() < 16 {
        return Err(Refusal::Broken(Rule::ShortPacket));
    }
    let claim = simple_claim(endian, interfaces, block);
    take_packet(alloc, interfaces, block, claim)
}

/// The packet of an enhanced packet block.
#[tactic(auto, unfolding(crate::specs::Section::packet_outcome, crate::specs::Packet::packet_rules, crate::specs::Packet::enhanced_claim))]
fn take_enhanced(
    alloc: Global,
    endian: Endian,
    interfaces: &[Interface],
    block: &[u8],
) -> Result<Option<Incoming>, Refusal>
    requires { length block.now < 2 ^ 32 }
    ensures answer { section.Answers (section.packet_outcome interfaces.now block.now (enhanced_claim endian block.now)) interfaces.now result }
    ensures sized { IfOk result (λ packet. IfSome packet (λ packet. IsFrameSize (length packet.frame))) }
{
    if block.len() < 32 {
        return Err(Refusal::Broken(Rule::ShortPacket));
    }
    let claim = enhanced_claim(endian, block);
    take_packet(alloc, interfaces, block, claim)
}

/// What a block brings, by its type.
#[tactic(auto, unfolding(crate::specs::Section::body_outcome))]
fn take_body(
    alloc: Global,
    endian: Endian,
    interfaces: &mut List<Interface>,
    block: &[u8],
) -> Result<Option<Incoming>, Refusal>
    requires some { 12 ≤ length block.now }
    requires even { length block.now % 4 ≡ 0 }
    requires short { length block.now < 2 ^ 32 }
    ensures answer { section.Answers (section.body_outcome endian interfaces.old block.now) interfaces.new result }
    ensures sized { IfOk result (λ packet. IfSome packet (λ packet. IsFrameSize (length packet.frame))) }
{
    match endian.u32_at(block, 0) {
        SECTION_HEADER => {
            check_section(endian, block)?;
            *interfaces = List::new(alloc);
            Ok(None)
        }
        INTERFACE_DESCRIPTION => {
            let interface = read_interface(endian, block)?;
            interfaces.push(interface)?;
            Ok(None)
        }
        SIMPLE_PACKET => take_simple(alloc, endian, interfaces.as_slice(), block),
        ENHANCED_PACKET => take_enhanced(alloc, endian, interfaces.as_slice(), block),
        _ => Ok(None),
    }
}

/// Takes a whole block: the packet that it brings, if any, and what it says of its section.
#[tactic(auto, unfolding(crate::specs::Section::block_outcome))]
pub(crate) fn take_block(
    alloc: Global,
    endian: Endian,
    interfaces: &mut List<Interface>,
    block: &[u8],
) -> Result<Option<Incoming>, Refusal>
    requires some { 12 ≤ length block.now }
    requires even { length block.now % 4 ≡ 0 }
    requires short { length block.now < 2 ^ 32 }
    ensures answer { section.Answers (section.block_outcome endian interfaces.old block.now) interfaces.new result }
    ensures sized { IfOk result (λ packet. IfSome packet (λ packet. IsFrameSize (length packet.frame))) }
{
    if endian.u32_at(block, block.len() - 4) as usize != block.len() {
        return Err(Refusal::Broken(Rule::LengthsDiffer));
    }
    take_body(alloc, endian, interfaces, block)
}
