//! The blocks of a point.

ghost use Rattle.std.specs.Prelude.{◌≡◌, ◌<◌, ◌^◌, ◌++◌, IfOk, length};
ghost use Rattle.pcapng_text.specs.Written.{interface_bytes, packet_size};
ghost use Rattle.dump_capture.specs.Capture.{interface_block, packet_block};
ghost use Rattle.dump_capture.specs.Key.{if_name, name_text, side_text};
ghost use Rattle.dump_capture.specs.Point.{plain_of};
ghost use Rattle.xio.specs.Printing.{Prints};

use crate::point::Point;
use lists::{Bytes, OutOfMemory};
use pcapng_text::{interface_print, packet_print};
use std::alloc::Global;
use xio::Printer;

fn side_text(exit: bool) -> &'static [u8]
    ensures { result.now ≡ side_text exit }
{
    if exit { b"exit" } else { b"entry" }
}

/// Prints the block of an interface that is named so.
fn named_block_print<'a, P: Printer>(
    printer: &mut P,
    interface: &'a [u8],
    name: &'a [u8],
    side: &'a [u8],
    snap: u32,
) -> Result<(), P::End>
    requires { length (name_text interface.now name.now side.now) < 2 ^ 16 }
    ensures { Prints P.tells P.counts (P.state printer.old) (P.state printer.new) (interface_bytes (name_text interface.now name.now side.now) snap) result }
{
    interface_print(printer, &[interface, b":", name, b"()@", side], snap)
}

/// Prints the interface block of a point.
#[tactic(auto, unfolding(crate::specs::Key::if_name))]
pub(crate) fn interface_block_print<P: Printer>(
    printer: &mut P,
    point: &Point<'_>,
) -> Result<(), P::End>
    requires { length (if_name (plain_of point.now)) < 2 ^ 16 }
    ensures { Prints P.tells P.counts (P.state printer.old) (P.state printer.new) (interface_block (plain_of point.now)) result }
{
    let side = side_text(point.exit);
    named_block_print(printer, point.interface, point.name, side, point.snap)
}

/// Prints the packet block of a point on the interface of a number.
pub(crate) fn packet_block_print<P: Printer>(
    printer: &mut P,
    number: u32,
    point: &Point<'_>,
) -> Result<(), P::End>
    requires { packet_size point.now.kept.now point.now.options < 2 ^ 32 }
    ensures { Prints P.tells P.counts (P.state printer.old) (P.state printer.new) (packet_block number (plain_of point.now)) result }
{
    packet_print(
        printer,
        number,
        point.timestamp,
        point.length,
        point.kept,
        &point.options,
    )
}

/// Prints both, the interface of this number before the packet.
pub(crate) fn first_blocks_print<P: Printer>(
    printer: &mut P,
    number: u32,
    point: &Point<'_>,
) -> Result<(), P::End>
    requires name { length (if_name (plain_of point.now)) < 2 ^ 16 }
    requires size { packet_size point.now.kept.now point.now.options < 2 ^ 32 }
    ensures { Prints P.tells P.counts (P.state printer.old) (P.state printer.new) (interface_block (plain_of point.now) ++ packet_block number (plain_of point.now)) result }
{
    interface_block_print(printer, point)?;
    packet_block_print(printer, number, point)
}

/// The interface block of a point.
pub(crate) fn interface_block(alloc: Global, point: &Point<'_>) -> Result<Bytes, OutOfMemory>
    requires { length (if_name (plain_of point.now)) < 2 ^ 16 }
    ensures { IfOk result (λ block. block ≡ interface_block (plain_of point.now)) }
{
    let mut block = Bytes::new(alloc);
    interface_block_print(&mut block, point)?;
    Ok(block)
}

/// The packet block of a point on the interface of a number.
pub(crate) fn packet_block(
    alloc: Global,
    number: u32,
    point: &Point<'_>,
) -> Result<Bytes, OutOfMemory>
    requires { packet_size point.now.kept.now point.now.options < 2 ^ 32 }
    ensures { IfOk result (λ block. block ≡ packet_block number (plain_of point.now)) }
{
    let mut block = Bytes::new(alloc);
    packet_block_print(&mut block, number, point)?;
    Ok(block)
}
