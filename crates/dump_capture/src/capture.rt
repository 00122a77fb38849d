ghost use Rattle.std.specs.Prelude.{◌≡◌, ◌+◌, ◌<◌, ◌^◌, ◌++◌, [], if◌then◌else◌, is_ok, IsTrue, IfOk, OnOk, OnErr, length, None};
ghost use Rattle.pcapng_text.specs.Written.{packet_size, section_bytes};
ghost use Rattle.dump_capture.specs.Capture.{blocks_of, interface_block, packet_block, HasPutCause, Puts, StopsBetween, WritesBehind};
ghost use Rattle.dump_capture.specs.Key.{if_name};
ghost use Rattle.dump_capture.specs.Keys.{is_known, number_of, shown, with_key};
ghost use Rattle.dump_capture.specs.Point.{plain_of};
ghost use Rattle.xio.specs.Printing.{Prints};

use crate::blocks::{first_blocks_print, interface_block, packet_block, packet_block_print};
use crate::keys::Keys;
use crate::point::Point;
use crate::put_end::PutEnd;
use lists::OutOfMemory;
use pcapng_text::section;
use std::alloc::Global;
use std::marker::Model;
use xio::{Printer, Sink, write_all};

/// A capture that is written block by block. It knows which interface blocks it has written, and the keys of those that
/// it may write.
#[derive(Debug, Drop)]
pub struct Capture {
    alloc: Global,
    keys: Keys,
}

impl Model for Capture {
    ghost use Rattle.dump_capture.specs.Keys.{Keys};

    ghost Value = { Keys };

    ghost view = { λ capture. capture.keys };
}

/// Writes a block behind so many bytes that this call wrote before.
fn write_block<K: Sink>(sink: &mut K, block: &[u8], before: u64) -> Result<(), PutEnd>
    requires { before + length block.now < 2 ^ 64 }
    ensures held { IsTrue K.tells → WritesBehind before (K.held sink.old) (K.held sink.new) result block.now }
    ensures within { StopsBetween before (before + length block.now) result }
    ensures same_flushed { IsTrue K.tells → K.flushed sink.new ≡ K.flushed sink.old }
    ensures cause { HasPutCause (K.faults sink.old) (K.faults sink.new) result }
    ensures same_setting { K.setting sink.new ≡ K.setting sink.old }
{
    match write_all(sink, block) {
        Ok(()) => Ok(()),
        Err(fault) => Err(PutEnd::WriteFault {
            written: before + fault.written,
        }),
    }
}

/// Writes two blocks, one after the other.
fn write_blocks<K: Sink>(sink: &mut K, first: &[u8], second: &[u8]) -> Result<(), PutEnd>
    requires { length first.now + length second.now < 2 ^ 64 }
    ensures held { IsTrue K.tells → Puts (K.held sink.old) (K.held sink.new) result (first.now ++ second.now) }
    ensures within { StopsBetween 0 (length (first.now ++ second.now)) result }
    ensures same_flushed { IsTrue K.tells → K.flushed sink.new ≡ K.flushed sink.old }
    ensures cause { HasPutCause (K.faults sink.old) (K.faults sink.new) result }
    ensures same_setting { K.setting sink.new ≡ K.setting sink.old }
{
    match write_block(sink, first, 0) {
        Ok(()) => write_block(sink, second, first.len() as u64),
        Err(end) => Err(end),
    }
}

/// Writes the packet of a point whose interface block is written.
fn put_packet<K: Sink>(
    alloc: Global,
    number: u32,
    point: &Point<'_>,
    sink: &mut K,
) -> Result<(), PutEnd>
    requires { packet_size point.now.kept.now point.now.options < 2 ^ 32 }
    ensures held { IsTrue K.tells → Puts (K.held sink.old) (K.held sink.new) result (packet_block number (plain_of point.now)) }
    ensures within { StopsBetween 0 (length (packet_block number (plain_of point.now))) result }
    ensures same_flushed { IsTrue K.tells → K.flushed sink.new ≡ K.flushed sink.old }
    ensures cause { HasPutCause (K.faults sink.old) (K.faults sink.new) result }
    ensures same_setting { K.setting sink.new ≡ K.setting sink.old }
{
    let packet = packet_block(alloc, number, point)?;
    write_block(sink, packet.as_slice(), 0)
}

/// Writes the interface block of a point and its packet.
fn put_first<K: Sink>(
    alloc: Global,
    keys: &mut Keys,
    point: &Point<'_>,
    sink: &mut K,
) -> Result<(), PutEnd>
    requires unwritten { number_of keys.old.written (plain_of point.now) ≡ None }
    requires name { length (if_name (plain_of point.now)) < 2 ^ 16 }
    requires size { packet_size point.now.kept.now point.now.options < 2 ^ 32 }
    ensures held { IsTrue K.tells → Puts (K.held sink.old) (K.held sink.new) result (interface_block (plain_of point.now) ++ packet_block (length keys.old.written) (plain_of point.now)) }
    ensures within { StopsBetween 0 (length (interface_block (plain_of point.now) ++ packet_block (length keys.old.written) (plain_of point.now))) result }
    ensures keys { keys.new ≡ (if is_ok result then shown keys.old (plain_of point.now) else keys.old) }
    ensures same_flushed { IsTrue K.tells → K.flushed sink.new ≡ K.flushed sink.old }
    ensures cause { HasPutCause (K.faults sink.old) (K.faults sink.new) result }
    ensures same_setting { K.setting sink.new ≡ K.setting sink.old }
{
    let interface = interface_block(alloc, point)?;
    let packet = packet_block(alloc, keys.count(), point)?;
    let made = keys.reserve(point)?;
    match write_blocks(sink, interface.as_slice(), packet.as_slice()) {
        Ok(()) => {
            keys.show(point);
            Ok(())
        }
        Err(end) if made => {
            keys.forget();
            Err(end)
        }
        Err(end) => Err(end),
    }
}

/// Prints the interface block of a point and its packet.
fn print_first<P: Printer>(
    keys: &mut Keys,
    point: &Point<'_>,
    printer: &mut P,
) -> Result<(), P::End>
    requires known { IsTrue (is_known keys.old (plain_of point.now)) }
    requires unwritten { number_of keys.old.written (plain_of point.now) ≡ None }
    requires name { length (if_name (plain_of point.now)) < 2 ^ 16 }
    requires size { packet_size point.now.kept.now point.now.options < 2 ^ 32 }
    ensures prints { Prints P.tells P.counts (P.state printer.old) (P.state printer.new)
        (interface_block (plain_of point.now) ++ packet_block (length keys.old.written) (plain_of point.now)) result }
    ensures keys { keys.new ≡ (if is_ok result then shown keys.old (plain_of point.now) else keys.old) }
{
    first_blocks_print(printer, keys.count(), point)?;
    keys.show(point);
    Ok(())
}

/// Writes the blocks of a point.
fn put_point<K: Sink>(
    alloc: Global,
    keys: &mut Keys,
    point: &Point<'_>,
    sink: &mut K,
) -> Result<(), PutEnd>
    requires name { length (if_name (plain_of point.now)) < 2 ^ 16 }
    requires size { packet_size point.now.kept.now point.now.options < 2 ^ 32 }
    ensures held { IsTrue K.tells → Puts (K.held sink.old) (K.held sink.new) result (blocks_of keys.old.written (plain_of point.now)) }
    ensures within { StopsBetween 0 (length (blocks_of keys.old.written (plain_of point.now))) result }
    ensures keys { keys.new ≡ (if is_ok result then shown keys.old (plain_of point.now) else keys.old) }
    ensures same_flushed { IsTrue K.tells → K.flushed sink.new ≡ K.flushed sink.old }
    ensures cause { HasPutCause (K.faults sink.old) (K.faults sink.new) result }
    ensures same_setting { K.setting sink.new ≡ K.setting sink.old }
{
    match keys.number_of(point) {
        Some(number) => put_packet(alloc, number, point, sink),
        None => put_first(alloc, keys, point, sink),
    }
}

/// Prints the blocks of a point.
fn print_point<P: Printer>(
    keys: &mut Keys,
    point: &Point<'_>,
    printer: &mut P,
) -> Result<(), P::End>
    requires known { IsTrue (is_known keys.old (plain_of point.now)) }
    requires name { length (if_name (plain_of point.now)) < 2 ^ 16 }
    requires size { packet_size point.now.kept.now point.now.options < 2 ^ 32 }
    ensures prints { Prints P.tells P.counts (P.state printer.old) (P.state printer.new) (blocks_of keys.old.written (plain_of point.now)) result }
    ensures keys { keys.new ≡ (if is_ok result then shown keys.old (plain_of point.now) else keys.old) }
{
    match keys.number_of(point) {
        Some(number) => packet_block_print(printer, number, point),
        None => print_first(keys, point, printer),
    }
}

impl Capture {
    /// A capture without a block, with room for the first interfaces.
    pub fn new(alloc: Global) -> Result<Self, OutOfMemory>
        ensures { IfOk result (λ capture. capture ≡ record { written = []; waiting = [] }) }
    {
        Ok(Capture {
            alloc,
            keys: Keys::new(alloc)?,
        })
    }

    /// Writes the section header. After an error the capture is as before.
    pub fn start<K: Sink>(&mut self, sink: &mut K) -> Result<(), PutEnd>
        ensures held { IsTrue K.tells → Puts (K.held sink.old) (K.held sink.new) result section_bytes }
        ensures within { StopsBetween 0 (length section_bytes) result }
        ensures keys { self.new ≡ self.old }
        ensures same_flushed { IsTrue K.tells → K.flushed sink.new ≡ K.flushed sink.old }
        ensures cause { HasPutCause (K.faults sink.old) (K.faults sink.new) result }
        ensures same_setting { K.setting sink.new ≡ K.setting sink.old }
    {
        let block = section(self.alloc)?;
        write_block(sink, block.as_slice(), 0)
    }

    /// Writes a packet, behind its interface block where that isn't written yet. After an error the capture is as
    /// before.
    pub fn put<K: Sink>(&mut self, point: &Point<'_>, sink: &mut K) -> Result<(), PutEnd>
        requires name { length (if_name (plain_of point.now)) < 2 ^ 16 }
        requires size { packet_size point.now.kept.now point.now.options < 2 ^ 32 }
        ensures held { IsTrue K.tells → Puts (K.held sink.old) (K.held sink.new) result (blocks_of self.old.written (plain_of point.now)) }
        ensures within { StopsBetween 0 (length (blocks_of self.old.written (plain_of point.now))) result }
        ensures keys { self.new ≡ (if is_ok result then shown self.old (plain_of point.now) else self.old) }
        ensures same_flushed { IsTrue K.tells → K.flushed sink.new ≡ K.flushed sink.old }
        ensures cause { HasPutCause (K.faults sink.old) (K.faults sink.new) result }
        ensures same_setting { K.setting sink.new ≡ K.setting sink.old }
    {
        put_point(self.alloc, &mut self.keys, point, sink)
    }

    /// Makes what the interface block of a point is remembered by, so that the point can be printed without memory.
    pub fn reserve(&mut self, point: &Point<'_>) -> Result<(), OutOfMemory>
        ensures ok { OnOk result (self.new ≡ with_key self.old (plain_of point.now)) }
        ensures err { OnErr result (self.new ≡ self.old) }
    {
        self.keys.reserve(point)?;
        Ok(())
    }

    /// Whether the point can be printed without memory.
    pub fn knows(&self, point: &Point<'_>) -> bool
        ensures { result ≡ is_known self.now (plain_of point.now) }
    {
        self.keys.is_known(point)
    }

    /// Prints a packet, behind its interface block where that isn't printed yet. After an error the capture is as
    /// before.
    pub fn print<P: Printer>(&mut self, point: &Point<'_>, printer: &mut P) -> Result<(), P::End>
        requires known { IsTrue (is_known self.old (plain_of point.now)) }
        requires name { length (if_name (plain_of point.now)) < 2 ^ 16 }
        requires size { packet_size point.now.kept.now point.now.options < 2 ^ 32 }
        ensures prints { Prints P.tells P.counts (P.state printer.old) (P.state printer.new) (blocks_of self.old.written (plain_of point.now)) result }
        ensures keys { self.new ≡ (if is_ok result then shown self.old (plain_of point.now) else self.old) }
    {
        print_point(&mut self.keys, point, printer)
    }
}
