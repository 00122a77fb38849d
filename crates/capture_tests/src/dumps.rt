ghost use Rattle.std.specs.Prelude.{◌<◌, ◌^◌, length};
ghost use Rattle.pcapng_text.specs.Written.{packet_size};
ghost use Rattle.dump_capture.specs.Key.{if_name};
ghost use Rattle.dump_capture.specs.Point.{plain_of};

use dump_capture::{Capture, Point, PutEnd};
use lists::{Bytes, OutOfMemory};
use pcapng_text::PacketOptions;
use std::alloc::Global;
use std::test::Fail;
use xio::{MemorySink, PrintBuffer, Printer, SinkPrinter, pass_on};

const SECTION: &[u8] =
    b"\x0a\x0d\x0d\x0a\x1c\0\0\0\x4d\x3c\x2b\x1a\x01\0\0\0\xff\xff\xff\xff\xff\xff\xff\xff\x1c\0\0\0";

/// The interface `eth0:a()@entry` with a snap length of 262,144.
const INTERFACE: &[u8] =
    b"\x01\0\0\0\x34\0\0\0\x01\0\0\0\0\0\x04\0\x02\0\x0e\0eth0:a()@entry\0\0\x09\0\x01\0\x09\0\0\0\0\0\0\0\x34\0\0\0";

/// A frame of 14 bytes on interface 0, 4 milliseconds after the start.
const PACKET: &[u8] =
    b"\x06\0\0\0\x5c\0\0\0\0\0\0\0\0\0\0\0\0\x09\x3d\0\x0e\0\0\0\x0e\0\0\0\x02\0\0\0\0\x01\x02\0\0\0\0\x02\x88\xb5\0\0\x01\0\x0d\0publication=2\0\0\0\x05\0\x08\0\0\0\0\0\0\0\0\0\x06\0\x04\0\0\0\0\0\0\0\0\0\x5c\0\0\0";

/// The interface `eth0:a()@exit`.
const EXIT_INTERFACE: &[u8] =
    b"\x01\0\0\0\x34\0\0\0\x01\0\0\0\0\0\x04\0\x02\0\x0d\0eth0:a()@exit\0\0\0\x09\0\x01\0\x09\0\0\0\0\0\0\0\x34\0\0\0";

/// The frame on interface 1.
const SECOND: &[u8] =
    b"\x06\0\0\0\x5c\0\0\0\x01\0\0\0\0\0\0\0\0\x09\x3d\0\x0e\0\0\0\x0e\0\0\0\x02\0\0\0\0\x01\x02\0\0\0\0\x02\x88\xb5\0\0\x01\0\x0d\0publication=2\0\0\0\x05\0\x08\0\0\0\0\0\0\0\0\0\x06\0\x04\0\0\0\0\0\0\0\0\0\x5c\0\0\0";

fn joined(alloc: Global, blocks: &[&[u8]]) -> Result<Bytes, OutOfMemory> {
    let mut bytes = Bytes::new(alloc);
    for block in blocks {
        bytes.append(block)?;
    }
    Ok(bytes)
}

#[tactic(auto, using(dump_capture::proofs::Putting::fitting), unfolding(dump_capture::specs::Key::if_name))]
fn point(exit: bool) -> Point<'static>
    ensures name { length (if_name (plain_of result)) < 2 ^ 16 }
    ensures size { packet_size result.kept.now result.options < 2 ^ 32 }
{
    Point {
        interface: b"eth0",
        name: b"a",
        exit,
        snap: 262_144,
        timestamp: 4_000_000,
        length: 14,
        kept: b"\x02\0\0\0\0\x01\x02\0\0\0\0\x02\x88\xb5",
        options: PacketOptions {
            publication: 2,
            id: 0,
            queue: 0,
            verdict: None,
        },
    }
}

/// What a sink holds after two packets at one point, the first of which is at a start.
fn captured(alloc: Global, failing: &[u32]) -> Result<(MemorySink, [Result<(), PutEnd>; 3]), Fail> {
    let mut sink = MemorySink::new(alloc, 1000, failing)?;
    let mut capture = Capture::new(alloc)?;
    let point = point(false);
    let started = capture.start(&mut sink);
    let first = capture.put(&point, &mut sink);
    let second = capture.put(&point, &mut sink);
    Ok((sink, [started, first, second]))
}

#[test]
fn one_interface_block_for_two_packets(rt: HostRuntime) -> Result<(), Fail> {
    let (sink, ends) = captured(rt.alloc(), &[])?;
    assert_eq!(rt; ends, [Ok(()), Ok(()), Ok(())]);
    let wanted = joined(rt.alloc(), &[SECTION, INTERFACE, PACKET, PACKET])?;
    assert_eq!(rt; sink.bytes(), wanted.as_slice());
    Ok(())
}

#[test]
fn a_point_is_put_again_after_a_fault(rt: HostRuntime) -> Result<(), Fail> {
    let fault = |written| Err(PutEnd::WriteFault { written });
    let (sink, ends) = captured(rt.alloc(), &[2])?;
    assert_eq!(rt; ends, [Ok(()), fault(0), Ok(())]);
    let wanted = joined(rt.alloc(), &[SECTION, INTERFACE, PACKET])?;
    assert_eq!(rt; sink.bytes(), wanted.as_slice());
    let (sink, ends) = captured(rt.alloc(), &[3])?;
    assert_eq!(rt; ends, [Ok(()), fault(52), Ok(())]);
    let wanted = joined(rt.alloc(), &[SECTION, INTERFACE, INTERFACE, PACKET])?;
    assert_eq!(rt; sink.bytes(), wanted.as_slice());
    Ok(())
}

/// Prints the packet at a side that is known, and says whether it did.
fn prints<P: Printer>(capture: &mut Capture, exit: bool, printer: &mut P) -> bool
where
    P::End: Drop,
{
    let point = point(exit);
    capture.knows(&point) && capture.print(&point, printer).is_ok()
}

#[test]
fn points_are_printed_once_their_keys_are_there(rt: HostRuntime) -> Result<(), Fail> {
    let mut capture = Capture::new(rt.alloc())?;
    let mut sink = MemorySink::new(rt.alloc(), 1000, &[])?;
    let mut buffer = PrintBuffer::new(rt.alloc())?;
    assert!(rt; !prints(&mut capture, false, &mut Bytes::new(rt.alloc())));
    capture.reserve(&point(false))?;
    capture.reserve(&point(true))?;
    let mut printer = SinkPrinter {
        sink: &mut sink,
        buffer: &mut buffer,
    };
    for exit in [true, false, false, true] {
        assert!(rt; prints(&mut capture, exit, &mut printer));
    }
    let SinkPrinter { sink, buffer } = printer;
    assert!(rt; pass_on(sink, buffer).is_ok());
    let blocks = [EXIT_INTERFACE, PACKET, INTERFACE, SECOND, SECOND, PACKET];
    let wanted = joined(rt.alloc(), &blocks)?;
    assert_eq!(rt; sink.bytes(), wanted.as_slice());
    Ok(())
}
