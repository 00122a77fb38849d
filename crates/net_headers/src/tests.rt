//! Frames written out in hex, with the fields that the standards give them. The addresses of all are the same.

use super::*;
use std::alloc::{AllocError, Global};
use std::process::Abort;
use std::test::Fail;

/// To 0a:0b:0c:0d:0e:0f, from 02:03:04:05:06:07.
const ADDRESSES: &str = "0a0b0c0d0e0f 020304050607";

/// From 192.0.2.1 to 198.51.100.2.
const V4: Net = Net::V4 {
    source: 0xC000_0201,
    target: 0xC633_6402,
};

/// From 2001:db8::1 to 2001:db8::2.
const V6: Net = Net::V6 {
    source: 0x2001_0DB8_0000_0000_0000_0000_0000_0001,
    target: 0x2001_0DB8_0000_0000_0000_0000_0000_0002,
};

const TCP: Ports = Ports::Tcp {
    source: 12345,
    target: 443,
};

const UDP: Ports = Ports::Udp {
    source: 5353,
    target: 53,
};

fn nibble(digit: u8) -> u8 {
    match digit {
        b'0'..=b'9' => digit - b'0',
        b'a'..=b'f' => digit - b'a' + 10,
        _ => 0,
    }
}

/// A frame of these addresses, and of what is behind them in hex digits and blanks.
fn frame_of(alloc: Global, behind: &str) -> Result<Vec<u8>, AllocError> {
    let mut frame = Vec::new(alloc);
    let mut high = None;
    for text in [ADDRESSES, behind] {
        for &digit in text.as_bytes() {
            match high {
                _ if digit == b' ' => {}
                None => high = Some(nibble(digit)),
                Some(n) => {
                    frame.push(n.wrapping_mul(16) | nibble(digit))?;
                    high = None;
                }
            }
        }
    }
    Ok(frame)
}

/// What stands behind the addresses of a frame, and its fields but these.
type Row = (&'static str, u16, Net, Ports);

const ETHERNET_ROWS: [Row; 8] = [
    // 14 bytes, and an IPv4 header should follow
    ("0800", 0x0800, Net::Cut, Ports::Absent),
    // ARP
    ("0806 00010800 06040001", 0x0806, Net::Absent, Ports::Absent),
    // one tag
    (
        "8100 0064 \
         0800 4500001c 00000000 40110000 c0000201 c6336402 \
         14e90035 00080000",
        0x0800,
        V4,
        UDP,
    ),
    // two tags
    (
        "88a8 0064 \
         8100 00c8 \
         86dd 60000000 00081140 \
         20010db8000000000000000000000001 20010db8000000000000000000000002 \
         14e90035 00080000",
        0x86DD,
        V6,
        UDP,
    ),
    // three tags
    (
        "88a8 0064 \
         8100 00c8 \
         8100 012c \
         0800 4500001c 00000000 40110000 c0000201 c6336402 \
         14e90035 00080000",
        0x8100,
        Net::Absent,
        Ports::Absent,
    ),
    // a tag without the next type
    ("8100 0064 08", 0x8100, Net::Cut, Ports::Absent),
    // a second one
    ("88a8 0064 8100 00c8 08", 0x8100, Net::Cut, Ports::Absent),
    // a third one, which isn't looked into
    (
        "88a8 0064 8100 00c8 8100",
        0x8100,
        Net::Absent,
        Ports::Absent,
    ),
];

const IPV4_ROWS: [Row; 11] = [
    // TCP, not to be fragmented
    (
        "0800 45000028 00004000 40060000 c0000201 c6336402 \
         303901bb 00000000 00000000 50020000 00000000",
        0x0800,
        V4,
        TCP,
    ),
    // two words of options
    (
        "0800 47000024 00000000 40110000 c0000201 c6336402 \
         01010101 01010101 \
         14e90035 00080000",
        0x0800,
        V4,
        UDP,
    ),
    // cut in the options
    (
        "0800 47000024 00000000 40110000 c0000201 c6336402 01010101 010101",
        0x0800,
        Net::Cut,
        Ports::Absent,
    ),
    // 19 bytes
    (
        "0800 45000028 00004000 40060000 c0000201 c63364",
        0x0800,
        Net::Cut,
        Ports::Absent,
    ),
    // a header length of 4 words
    (
        "0800 44000028 00004000 40060000 c0000201 c6336402 \
         303901bb 00000000 00000000 50020000 00000000",
        0x0800,
        Net::Cut,
        Ports::Absent,
    ),
    // another version
    (
        "0800 65000028 00004000 40060000 c0000201 c6336402 \
         303901bb 00000000 00000000 50020000 00000000",
        0x0800,
        V4,
        TCP,
    ),
    // the first fragment
    (
        "0800 4500001c 00002000 40110000 c0000201 c6336402 14e90035 00080000",
        0x0800,
        V4,
        UDP,
    ),
    // a later fragment
    (
        "0800 4500001c 000020b9 40110000 c0000201 c6336402 14e90035 00080000",
        0x0800,
        V4,
        Ports::Absent,
    ),
    // ICMP
    (
        "0800 4500001c 00000000 40010000 c0000201 c6336402 08000000 00000000",
        0x0800,
        V4,
        Ports::Absent,
    ),
    // TCP of 19 bytes
    (
        "0800 45000027 00000000 40060000 c0000201 c6336402 \
         303901bb 00000000 00000000 50020000 000000",
        0x0800,
        V4,
        Ports::Cut,
    ),
    // UDP of 7 bytes
    (
        "0800 4500001b 00000000 40110000 c0000201 c6336402 14e90035 000800",
        0x0800,
        V4,
        Ports::Cut,
    ),
];

const IPV6_ROWS: [Row; 10] = [
    // UDP
    (
        "86dd 60000000 00081140 \
         20010db8000000000000000000000001 20010db8000000000000000000000002 \
         14e90035 00080000",
        0x86DD,
        V6,
        UDP,
    ),
    // 39 bytes
    (
        "86dd 60000000 00081140 \
         20010db8000000000000000000000001 20010db80000000000000000000000",
        0x86DD,
        Net::Cut,
        Ports::Absent,
    ),
    // hop-by-hop options, routing, destination options, authentication and a first fragment
    (
        "86dd 60000000 00540040 \
         20010db8000000000000000000000001 20010db8000000000000000000000002 \
         2b00010400000000 \
         3c01000000000000 0000000000000000 \
         3300010400000000 \
         2c040000 00000001 00000001 000000000000000000000000 \
         06000001 00000007 \
         303901bb 00000000 00000000 50020000 00000000",
        0x86DD,
        V6,
        TCP,
    ),
    // a later fragment
    (
        "86dd 60000000 00102c40 \
         20010db8000000000000000000000001 20010db8000000000000000000000002 \
         110005c8 00000007 \
         14e90035 00080000",
        0x86DD,
        V6,
        Ports::Absent,
    ),
    // mobility, and nothing behind it
    (
        "86dd 60000000 00088740 \
         20010db8000000000000000000000001 20010db8000000000000000000000002 \
         3b00010400000000",
        0x86DD,
        V6,
        Ports::Absent,
    ),
    // six extension headers
    (
        "86dd 60000000 00383c40 \
         20010db8000000000000000000000001 20010db8000000000000000000000002 \
         3c00010400000000 3c00010400000000 3c00010400000000 3c00010400000000 \
         3c00010400000000 1100010400000000 \
         14e90035 00080000",
        0x86DD,
        V6,
        UDP,
    ),
    // seven
    (
        "86dd 60000000 00403c40 \
         20010db8000000000000000000000001 20010db8000000000000000000000002 \
         3c00010400000000 3c00010400000000 3c00010400000000 3c00010400000000 \
         3c00010400000000 3c00010400000000 1100010400000000 \
         14e90035 00080000",
        0x86DD,
        V6,
        Ports::Absent,
    ),
    // destination options of 16 bytes, one of them missing
    (
        "86dd 60000000 00103c40 \
         20010db8000000000000000000000001 20010db8000000000000000000000002 \
         1101010c00000000 00000000000000",
        0x86DD,
        V6,
        Ports::Cut,
    ),
    // no byte of the hop-by-hop options
    (
        "86dd 60000000 00080040 \
         20010db8000000000000000000000001 20010db8000000000000000000000002",
        0x86DD,
        V6,
        Ports::Cut,
    ),
    // no next header
    (
        "86dd 60000000 00083b40 \
         20010db8000000000000000000000001 20010db8000000000000000000000002 \
         14e90035 00080000",
        0x86DD,
        V6,
        Ports::Absent,
    ),
];

/// The fields of a frame of these addresses.
fn fields_of(alloc: Global, behind: &str) -> Result<Result<Headers, Short>, AllocError> {
    let frame = frame_of(alloc, behind)?;
    Ok(headers(&frame))
}

fn same_fields(rt: &impl Abort, alloc: Global, rows: &[Row]) -> Result<(), Fail> {
    for &(behind, ether_type, net, ports) in rows {
        let fields = Headers {
            source: 0x0203_0405_0607,
            target: 0x0A0B_0C0D_0E0F,
            ether_type,
            net,
            ports,
        };
        assert_eq!(rt; fields_of(alloc, behind)?, Ok(fields), "{behind}");
    }
    Ok(())
}

#[test]
fn ethernet(rt: HostRuntime) -> Result<(), Fail> {
    same_fields(&rt, rt.alloc(), &ETHERNET_ROWS)
}

#[test]
fn ipv4(rt: HostRuntime) -> Result<(), Fail> {
    same_fields(&rt, rt.alloc(), &IPV4_ROWS)
}

#[test]
fn ipv6(rt: HostRuntime) -> Result<(), Fail> {
    same_fields(&rt, rt.alloc(), &IPV6_ROWS)
}

#[test]
fn short(rt: HostRuntime) -> Result<(), Fail> {
    let frame = frame_of(rt.alloc(), "08")?;
    assert_eq!(rt; headers(&frame), Err(Short));
    assert_eq!(rt; headers(&[]), Err(Short));
    Ok(())
}
