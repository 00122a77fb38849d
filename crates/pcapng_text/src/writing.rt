//! Blocks of a capture that is written.

ghost use Rattle.std.specs.Prelude.{◌≡◌, ◌/◌, ◌%◌, ◌<◌, ◌^◌, IfOk, length};
ghost use Rattle.pcapng_text.specs.Parts.{joined};
ghost use Rattle.pcapng_text.specs.ReadBack.{ReadsAsInterface, ReadsAsPacket, ReadsAsSection};
ghost use Rattle.pcapng_text.specs.Written as written;
ghost use Rattle.xio.specs.Printing.{Prints};

use crate::packet_options::PacketOptions;
use crate::parts::{Part, block_print};
use lists::{Bytes, OutOfMemory};
use std::alloc::Global;
use xio::Printer;

const SECTION_HEADER: u32 = 0x0a0d_0d0a;

const BYTE_ORDER_MAGIC: u32 = 0x1a2b_3c4d;

const MAJOR_VERSION: u16 = 1;

/// Half of a section's length where that isn't told.
const NO_LENGTH: u32 = 0xffff_ffff;

const INTERFACE_DESCRIPTION: u32 = 1;

const ENHANCED_PACKET: u32 = 6;

const ETHERNET: u16 = 1;

const END_OF_OPTIONS: u32 = 0;

/// The upper and the lower half of a number.
fn halves(number: u64) -> (u32, u32)
    ensures upper { result.0 ≡ number / 2 ^ 32 }
    ensures lower { result.1 ≡ number % 2 ^ 32 }
{
    ((number >> 32) as u32, (number & 0xffff_ffff) as u32)
}

/// Prints the section header that a capture begins with.
pub fn section_print<P: Printer>(printer: &mut P) -> Result<(), P::End>
    ensures { Prints P.tells P.counts (P.state printer.old) (P.state printer.new) written.section_bytes result }
{
    block_print(
        printer,
        SECTION_HEADER,
        &[
            Part::U32(BYTE_ORDER_MAGIC),
            Part::U16(MAJOR_VERSION),
            Part::U16(0),
            Part::U32(NO_LENGTH),
            Part::U32(NO_LENGTH),
        ],
    )
}

/// The section header that a capture begins with.
pub fn section(alloc: Global) -> Result<Bytes, OutOfMemory>
    ensures bytes { IfOk result (λ bytes. bytes ≡ written.section_bytes) }
    ensures read_back { IfOk result ReadsAsSection }
{
    let mut bytes = Bytes::new(alloc);
    section_print(&mut bytes)?;
    Ok(bytes)
}

/// Prints an Ethernet interface with a name, in pieces, and a snap length, whose times are in nanoseconds.
pub fn interface_print<'a, P: Printer>(
    printer: &mut P,
    name: &'a [&'a [u8]],
    snap: u32,
) -> Result<(), P::End>
    requires { length (joined name.now) < 2 ^ 16 }
    ensures { Prints P.tells P.counts (P.state printer.old) (P.state printer.new) (written.interface_bytes (joined name.now) snap) result }
{
    block_print(
        printer,
        INTERFACE_DESCRIPTION,
        &[
            Part::U16(ETHERNET),
            Part::U16(0),
            Part::U32(snap),
            Part::Name(name),
            Part::Unit,
            Part::U32(END_OF_OPTIONS),
        ],
    )
}

/// An Ethernet interface with a name and a snap length, whose times are in nanoseconds.
pub fn interface(alloc: Global, name: &[u8], snap: u32) -> Result<Bytes, OutOfMemory>
    requires { length name.now < 2 ^ 16 }
    ensures bytes { IfOk result (λ bytes. bytes ≡ written.interface_bytes name.now snap) }
    ensures read_back { IfOk result (ReadsAsInterface snap) }
{
    let mut bytes = Bytes::new(alloc);
    interface_print(&mut bytes, &[name], snap)?;
    Ok(bytes)
}

fn enhanced_packet_print<P: Printer>(
    printer: &mut P,
    number: u32,
    timestamp: u64,
    original: u32,
    kept: &[u8],
    told: PacketOptions,
) -> Result<(), P::End>
    requires { written.packet_size kept.now told < 2 ^ 32 }
    ensures prints { Prints P.tells P.counts (P.state printer.old) (P.state printer.new) (written.packet_bytes number timestamp original kept.now told) result }
    ensures number { told.publication < 2 ^ 32 }
{
    let (upper, lower) = halves(timestamp);
    block_print(
        printer,
        ENHANCED_PACKET,
        &[
            Part::U32(number),
            Part::U32(upper),
            Part::U32(lower),
            Part::U32(kept.len() as u32),
            Part::U32(original),
            Part::Data(kept),
            Part::Publications(told.publication),
            Part::Identity(told.id),
            Part::Queue(told.queue),
            Part::Verdict(told.verdict),
            Part::U32(END_OF_OPTIONS),
        ],
    )
}

/// Prints a packet of the interface of a number, with a time in nanoseconds. `original` is the packet's length, of
/// which these bytes are kept.
pub fn packet_print<P: Printer>(
    printer: &mut P,
    number: u32,
    timestamp: u64,
    original: u32,
    kept: &[u8],
    options: &PacketOptions,
) -> Result<(), P::End>
    requires { written.packet_size kept.now options.now < 2 ^ 32 }
    ensures { Prints P.tells P.counts (P.state printer.old) (P.state printer.new) (written.packet_bytes number timestamp original kept.now options.now) result }
{
    enhanced_packet_print(printer, number, timestamp, original, kept, *options)
}

/// A packet of the interface of a number, with a time in nanoseconds. `original` is the packet's length, of which
/// these bytes are kept.
pub fn packet(
    alloc: Global,
    number: u32,
    timestamp: u64,
    original: u32,
    kept: &[u8],
    options: &PacketOptions,
) -> Result<Bytes, OutOfMemory>
    requires { written.packet_size kept.now options.now < 2 ^ 32 }
    ensures bytes { IfOk result (λ bytes. bytes ≡ written.packet_bytes number timestamp original kept.now options.now) }
    ensures read_back { IfOk result (ReadsAsPacket number timestamp kept.now) }
{
    let mut bytes = Bytes::new(alloc);
    enhanced_packet_print(&mut bytes, number, timestamp, original, kept, *options)?;
    Ok(bytes)
}
