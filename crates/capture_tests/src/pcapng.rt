ghost use Rattle.std.specs.Prelude.{[], false};

use lists::{Bytes, OutOfMemory};
use pcapng_text::{BlockEnd, Blocks, PacketOptions, Rule, interface, packet, section};
use std::alloc::Global;
use std::test::Fail;
use xio::{Action, Failed, MemorySource, Source};

/// A little endian section header.
const SECTION: &[u8] =
    b"\x0a\x0d\x0d\x0a\x1c\0\0\0\x4d\x3c\x2b\x1a\x01\0\0\0\xff\xff\xff\xff\xff\xff\xff\xff\x1c\0\0\0";

/// An Ethernet interface without a limit and without options.
const INTERFACE: &[u8] = b"\x01\0\0\0\x14\0\0\0\x01\0\0\0\0\0\0\0\x14\0\0\0";

/// The interface `eth0:a()@entry` with a snap length of 262,144, in nanoseconds.
const NAMED: &[u8] =
    b"\x01\0\0\0\x34\0\0\0\x01\0\0\0\0\0\x04\0\x02\0\x0e\0eth0:a()@entry\0\0\x09\0\x01\0\x09\0\0\0\0\0\0\0\x34\0\0\0";

/// A frame of 14 bytes on interface 0 at time 0.
const PACKET: &[u8] =
    b"\x06\0\0\0\x30\0\0\0\0\0\0\0\0\0\0\0\0\0\0\0\x0e\0\0\0\x0e\0\0\0\x02\0\0\0\0\x01\x02\0\0\0\0\x02\x88\xb5\0\0\x30\0\0\0";

/// The same in a simple packet block.
const SIMPLE: &[u8] =
    b"\x03\0\0\0\x20\0\0\0\x0e\0\0\0\x02\0\0\0\0\x01\x02\0\0\0\0\x02\x88\xb5\0\0\x20\0\0\0";

/// A block of a type that is passed over.
const OTHER: &[u8] = b"\x05\0\0\0\x0c\0\0\0\x0c\0\0\0";

/// The same in big endian.
const OTHER_BIG: &[u8] = b"\0\0\0\x05\0\0\0\x0c\0\0\0\x0c";

/// The frame as it enters the first program on interface 0, 4 milliseconds after the start.
const ENTRY: &[u8] =
    b"\x06\0\0\0\x5c\0\0\0\0\0\0\0\0\0\0\0\0\x09\x3d\0\x0e\0\0\0\x0e\0\0\0\x02\0\0\0\0\x01\x02\0\0\0\0\x02\x88\xb5\0\0\x01\0\x0d\0publication=2\0\0\0\x05\0\x08\0\0\0\0\0\0\0\0\0\x06\0\x04\0\0\0\0\0\0\0\0\0\x5c\0\0\0";

/// Thirteen of sixty bytes as they leave a program, with XDP_PASS.
const EXIT: &[u8] =
    b"\x06\0\0\0\x70\0\0\0\x01\0\0\0\x01\0\0\0\x02\0\0\0\x0d\0\0\0\x3c\0\0\0\x02\0\0\0\0\x01\x02\0\0\0\0\x02\x88\0\0\0\x01\0\x13\0publication=1000000\0\x05\0\x08\0\x08\x07\x06\x05\x04\x03\x02\x01\x06\0\x04\0\x03\0\0\0\x07\0\x09\0\x02\x02\0\0\0\0\0\0\0\0\0\0\0\0\0\0\x70\0\0\0";

/// The section header, the interface and the frame at 7 microseconds, all big endian.
const BIG: &[u8] =
    b"\x0a\x0d\x0d\x0a\0\0\0\x1c\x1a\x2b\x3c\x4d\0\x01\0\0\xff\xff\xff\xff\xff\xff\xff\xff\0\0\0\x1c\0\0\0\x01\0\0\0\x14\0\x01\0\0\0\0\0\0\0\0\0\x14\0\0\0\x06\0\0\0\x30\0\0\0\0\0\0\0\0\0\0\0\x07\0\0\0\x0e\0\0\0\x0e\x02\0\0\0\0\x01\x02\0\0\0\0\x02\x88\xb5\0\0\0\0\0\x30";

/// How many packets were read, the sum of their times and lengths, and how it ended.
type Seen = (u32, u64, usize, Option<BlockEnd>);

fn joined(alloc: Global, blocks: &[&[u8]]) -> Result<Bytes, OutOfMemory> {
    let mut bytes = Bytes::new(alloc);
    for block in blocks {
        bytes.append(block)?;
    }
    Ok(bytes)
}

fn seen<S: Source>(alloc: Global, source: &mut S, limit: u64) -> Result<Seen, OutOfMemory> {
    let mut blocks = Blocks::new(alloc, limit)?;
    let mut times = 0u64;
    let mut bytes = 0usize;
    for count in 0..100 {
        if !blocks.is_live() {
            break;
        }
        match blocks.next(source) {
            Ok(Some(packet)) => {
                times = times.saturating_add(packet.timestamp);
                bytes = bytes.saturating_add(packet.frame.as_slice().len());
            }
            Ok(None) => return Ok((count, times, bytes, None)),
            Err(end) => return Ok((count, times, bytes, Some(end))),
        }
    }
    Ok((100, times, bytes, None))
}

/// What is seen of the first `cut` bytes with other bytes at some places.
fn seen_of(
    alloc: Global,
    whole: &[u8],
    cut: usize,
    changes: &[(usize, u8)],
    limit: u64,
) -> Result<Seen, Fail> {
    let mut bytes = Vec::from_slice(alloc, whole)?;
    for (place, byte) in changes {
        if *place < bytes.len() {
            bytes[*place] = *byte;
        }
    }
    bytes.truncate(cut);
    let mut source = MemorySource::new(alloc, &bytes, &[], None)?;
    Ok(seen(alloc, &mut source, limit)?)
}

fn broken(rule: Rule, offset: u64) -> Option<BlockEnd> {
    Some(BlockEnd::BadCapture { offset, rule })
}

/// A source that gives one byte at a time, and tells nothing.
#[derive(Drop)]
struct Drip {
    source: MemorySource,
}

impl Source for Drip {
    ghost tells = { false };

    ghost rest = { λ _. [] };

    ghost faults = { λ drip. ⟦<MemorySource as Source>⟧.faults drip.source };

    ghost setting = { λ _. tt };

    fn read(&mut self, buffer: &mut [u8]) -> Result<usize, Failed> {
        let size = buffer.len().min(1);
        self.source.read(&mut buffer[..size])
    }
}

/// Damaged copies of SECTION, INTERFACE and two PACKET, whose blocks are at 0, 28, 48 and 96: the length, bytes that are
/// changed, the packets before the bad block, its rule and its place.
const DAMAGED: &[(usize, &[(usize, u8)], u32, Rule, u64)] = &[
    (0, &[], 0, Rule::ShortRest, 0),
    (107, &[], 1, Rule::ShortRest, 96),
    (144, &[(0, 1)], 0, Rule::NoSection, 0),
    (144, &[(8, 0x4e)], 0, Rule::BadMagic, 0),
    (144, &[(52, 8)], 0, Rule::BadLength, 48),
    (144, &[(52, 46)], 0, Rule::BadLength, 48),
    (144, &[(55, 1)], 0, Rule::BadLength, 48),
    (143, &[], 1, Rule::CutBlock, 96),
    (144, &[(140, 44)], 1, Rule::LengthsDiffer, 96),
    (144, &[(12, 2)], 0, Rule::BadSection, 0),
    (144, &[(32, 16), (40, 16)], 0, Rule::ShortInterface, 28),
    (144, &[(36, 101)], 0, Rule::LinkType, 28),
    (144, &[(52, 28), (72, 28)], 0, Rule::ShortPacket, 48),
    (144, &[(56, 1)], 0, Rule::NoInterface, 48),
    (144, &[(68, 17)], 0, Rule::DataPastEnd, 48),
];

#[test]
fn each_rule_on_a_damaged_copy(rt: HostRuntime) -> Result<(), Fail> {
    let whole = joined(rt.alloc(), &[SECTION, INTERFACE, PACKET, PACKET])?;
    for (cut, changes, packets, rule, offset) in DAMAGED {
        let seen = seen_of(rt.alloc(), whole.as_slice(), *cut, changes, 1000)?;
        assert_eq!(rt; seen.0, *packets);
        assert_eq!(rt; seen.3, broken(*rule, *offset));
    }
    Ok(())
}

/// Changed copies of SECTION, NAMED and PACKET, whose blocks are at 0, 28 and 80, and the options at 44, 64 and 72.
const BAD_OPTIONS: &[(&[(usize, u8)], Rule, u64)] = &[
    (&[(47, 1), (68, 0x89)], Rule::BadOption, 28),
    (&[(66, 2), (68, 0x89)], Rule::BadOption, 28),
    (&[(68, 0x89)], Rule::BinaryResolution, 28),
    (&[(100, 13)], Rule::FrameLength, 80),
    (&[(68, 0), (92, 16)], Rule::LateTimestamp, 80),
    (&[(68, 8), (95, 128)], Rule::LateTimestamp, 80),
];

#[test]
fn each_rule_on_options_and_times(rt: HostRuntime) -> Result<(), Fail> {
    let whole = joined(rt.alloc(), &[SECTION, NAMED, PACKET])?;
    for (changes, rule, offset) in BAD_OPTIONS {
        let seen = seen_of(rt.alloc(), whole.as_slice(), 128, changes, 1000)?;
        assert_eq!(rt; seen, (0, 0, 0, broken(*rule, *offset)));
    }
    Ok(())
}

/// Copies of SECTION, INTERFACE and two PACKET: the length, a byte that is changed, the limit, the packets and the end.
const LIMITED: &[(usize, (usize, u8), u64, u32, Option<BlockEnd>)] = &[
    (144, (0, 0x0a), 144, 2, None),
    (
        144,
        (0, 0x0a),
        143,
        1,
        Some(BlockEnd::TooLarge { limit: 143 }),
    ),
    (
        143,
        (0, 0x0a),
        143,
        1,
        Some(BlockEnd::TooLarge { limit: 143 }),
    ),
    (
        144,
        (100, 46),
        143,
        1,
        Some(BlockEnd::BadCapture {
            offset: 96,
            rule: Rule::BadLength,
        }),
    ),
    (
        144,
        (104, 1),
        143,
        1,
        Some(BlockEnd::TooLarge { limit: 143 }),
    ),
];

#[test]
fn the_limit_stands_between_the_length_and_the_cut(rt: HostRuntime) -> Result<(), Fail> {
    let whole = joined(rt.alloc(), &[SECTION, INTERFACE, PACKET, PACKET])?;
    for (cut, change, limit, packets, end) in LIMITED {
        let seen = seen_of(rt.alloc(), whole.as_slice(), *cut, &[*change], *limit)?;
        assert_eq!(rt; seen.0, *packets);
        assert_eq!(rt; seen.3, *end);
    }
    Ok(())
}

#[test]
fn blocks_of_both_orders_byte_by_byte(rt: HostRuntime) -> Result<(), Fail> {
    let blocks = [BIG, OTHER_BIG, SECTION, INTERFACE, SIMPLE, OTHER, PACKET];
    let whole = joined(rt.alloc(), &blocks)?;
    let wanted = (3, 7000, 42, None);
    assert_eq!(rt;
        seen_of(rt.alloc(), whole.as_slice(), 1000, &[], 1000)?,
        wanted
    );
    let source = MemorySource::new(rt.alloc(), whole.as_slice(), &[], None)?;
    assert_eq!(rt; seen(rt.alloc(), &mut Drip { source }, 1000)?, wanted);
    Ok(())
}

/// The time 2^32 + 5 in seconds over ten to a power, in nanoseconds.
const UNITS: &[(u8, u64)] = &[
    (9, 4_294_967_301),
    (6, 4_294_967_301_000),
    (0, 4_294_967_301_000_000_000),
    (10, 429_496_730),
    (28, 0),
    (127, 0),
];

#[test]
fn units_of_time(rt: HostRuntime) -> Result<(), Fail> {
    // The unit is at 68, the time at 92 and 96.
    let whole = joined(rt.alloc(), &[SECTION, NAMED, PACKET])?;
    for (unit, nanoseconds) in UNITS {
        let changes = [(68, *unit), (92, 1), (96, 5)];
        let seen = seen_of(rt.alloc(), whole.as_slice(), 128, &changes, 1000)?;
        assert_eq!(rt; seen, (1, *nanoseconds, 14, None));
    }
    Ok(())
}

#[test]
fn a_read_that_fails_in_the_third_packet(rt: HostRuntime) -> Result<(), Fail> {
    let whole = joined(rt.alloc(), &[SECTION, INTERFACE, PACKET, PACKET, PACKET])?;
    assert_eq!(rt;
        seen_of(rt.alloc(), whole.as_slice(), 192, &[], 192)?,
        (3, 0, 42, None)
    );
    let cut = broken(Rule::CutBlock, 144);
    assert_eq!(rt;
        seen_of(rt.alloc(), whole.as_slice(), 160, &[], 192)?,
        (2, 0, 28, cut)
    );
    let mut source = MemorySource::new(rt.alloc(), whole.as_slice(), &[], Some(160))?;
    let fault = Some(BlockEnd::ReadFault);
    assert_eq!(rt; seen(rt.alloc(), &mut source, 192)?, (2, 0, 28, fault));
    Ok(())
}

#[test]
fn written_blocks(rt: HostRuntime) -> Result<(), Fail> {
    assert_eq!(rt; section(rt.alloc())?.as_slice(), SECTION);
    assert_eq!(rt;
        interface(rt.alloc(), b"eth0:a()@entry", 262_144)?.as_slice(),
        NAMED
    );
    let frame = &PACKET[28..42];
    let options = PacketOptions {
        publication: 2,
        id: 0,
        queue: 0,
        verdict: None,
    };
    let entry = packet(rt.alloc(), 0, 4_000_000, 14, frame, &options)?;
    assert_eq!(rt; entry.as_slice(), ENTRY);
    let options = PacketOptions {
        publication: 1_000_000,
        id: 0x0102_0304_0506_0708,
        queue: 3,
        verdict: Some(Action::Pass),
    };
    let exit = packet(
        rt.alloc(),
        1,
        0x0000_0001_0000_0002,
        60,
        &frame[..13],
        &options,
    )?;
    assert_eq!(rt; exit.as_slice(), EXIT);
    Ok(())
}
