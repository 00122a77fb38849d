//! The parts of a block that is written.

ghost use Rattle.std.specs.Prelude.{◌≡◌, ◌+◌, ◌<◌, ◌^◌, ◌++◌, IsTrue, length};
ghost use Rattle.std.specs.List.{list_all};
ghost use Rattle.pcapng_text.specs.Parts.{framed, is_short, part_bytes, parts_bytes};
ghost use Rattle.pcapng_text.specs.Written as written;
ghost use Rattle.xio.specs.Printing.{Prints};

use crate::option_print::{
    comment_size, option_print, option_size, padding, publications_print, verdict_print,
};
use crate::options::padded;
use crate::pieces::pieces_size;
use xio::{Action, Printer};

const IF_NAME: u16 = 2;

const IF_TSRESOL: u16 = 9;

const EPB_PACKETID: u16 = 5;

const EPB_QUEUE: u16 = 6;

/// The unit of timestamps, as a power of ten.
const NANOSECONDS: u8 = 9;

/// A part of a block.
#[derive(Clone, Copy)]
pub(crate) enum Part<'a> {
    U16(u16),
    U32(u32),
    /// A packet's bytes, padded to 32 bits.
    Data(&'a [u8]),
    /// The option with an interface's name, in pieces.
    Name(&'a [&'a [u8]]),
    /// The option that says that timestamps are in nanoseconds.
    Unit,
    /// The comment with the number of publications.
    Publications(u32),
    /// The option with a packet's number.
    Identity(u64),
    /// The option with the receive queue.
    Queue(u32),
    /// The option with what a program answered, if any did.
    Verdict(Option<Action>),
}

fn data_print<P: Printer>(printer: &mut P, bytes: &[u8]) -> Result<(), P::End>
    requires { length bytes.now < 2 ^ 32 }
    ensures { Prints P.tells P.counts (P.state printer.old) (P.state printer.new) (bytes.now ++ written.padding (length bytes.now)) result }
{
    printer.print(bytes)?;
    printer.print(padding(bytes.len()))
}

fn part_print<P: Printer>(printer: &mut P, part: Part<'_>) -> Result<(), P::End>
    requires { IsTrue (is_short part) }
    ensures { Prints P.tells P.counts (P.state printer.old) (P.state printer.new) (part_bytes part.entry) result }
{
    match part {
        Part::U16(number) => printer.print(&number.to_le_bytes()),
        Part::U32(number) => printer.print(&number.to_le_bytes()),
        Part::Data(bytes) => data_print(printer, bytes),
        Part::Name(name) => option_print(printer, IF_NAME, name),
        Part::Unit => option_print(printer, IF_TSRESOL, &[&[NANOSECONDS]]),
        Part::Publications(count) => publications_print(printer, count),
        Part::Identity(id) => option_print(printer, EPB_PACKETID, &[&id.to_le_bytes()]),
        Part::Queue(queue) => option_print(printer, EPB_QUEUE, &[&queue.to_le_bytes()]),
        Part::Verdict(None) => Ok(()),
        Part::Verdict(Some(action)) => verdict_print(printer, action),
    }
}

/// The number of a part's bytes.
#[tactic(auto, using(crate::proofs::Lengths::lengths))]
fn part_size(part: Part<'_>) -> usize
    requires { length (part_bytes part) < 2 ^ 32 }
    ensures { result ≡ length (part_bytes part.entry) }
{
    match part {
        Part::U16(_) => 2,
        Part::U32(_) => 4,
        Part::Data(bytes) => padded(bytes.len()),
        Part::Name(name) => option_size(pieces_size(name)),
        Part::Unit => option_size(1),
        Part::Publications(count) => option_size(comment_size(count)),
        Part::Identity(_) => option_size(8),
        Part::Queue(_) => option_size(4),
        Part::Verdict(None) => 0,
        Part::Verdict(Some(_)) => option_size(9),
    }
}

fn parts_print<P: Printer>(printer: &mut P, parts: &[Part<'_>]) -> Result<(), P::End>
    requires { IsTrue (list_all is_short parts.now) }
    ensures { Prints P.tells P.counts (P.state printer.old) (P.state printer.new) (parts_bytes parts.now) result }
{
    for part in parts {
        part_print(printer, *part)?;
    }
    Ok(())
}

/// The number of the parts' bytes.
fn parts_size(parts: &[Part<'_>]) -> usize
    requires { length (parts_bytes parts.now) < 2 ^ 32 }
    ensures { result ≡ length (parts_bytes parts.now) }
{
    let mut size = 0;
    for part in parts {
        size += part_size(*part);
    }
    size
}

/// Prints a block: its type and length, its parts, and the length again.
#[tactic(auto, unfolding(crate::specs::Parts::framed))]
pub(crate) fn block_print<P: Printer>(
    printer: &mut P,
    kind: u32,
    parts: &[Part<'_>],
) -> Result<(), P::End>
    requires short { IsTrue (list_all is_short parts.now) }
    requires size { 12 + length (parts_bytes parts.now) < 2 ^ 32 }
    ensures { Prints P.tells P.counts (P.state printer.old) (P.state printer.new) (framed kind (parts_bytes parts.now)) result }
{
    let size = (12 + parts_size(parts)) as u32;
    parts_print(printer, &[Part::U32(kind), Part::U32(size)])?;
    parts_print(printer, parts)?;
    printer.print(&size.to_le_bytes())
}
