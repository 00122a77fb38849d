//! The answer: the header fields of a frame.

/// The header fields of a frame.
#[derive(Clone, Copy, Debug, PartialEq, Eq, Drop)]
pub struct Headers {
    /// The Ethernet address of the sender, a number of 48 bits.
    pub source: u64,
    /// The Ethernet address of the receiver, a number of 48 bits.
    pub target: u64,
    /// The type behind the VLAN tags that were passed: the last one that was read.
    pub ether_type: u16,
    pub net: Net,
    pub ports: Ports,
}

/// The addresses of the IP header.
#[derive(Clone, Copy, Debug, PartialEq, Eq, Drop)]
pub enum Net {
    /// Neither IPv4 nor IPv6 is announced.
    Absent,
    /// The frame ends inside a VLAN tag or inside the IP header, or an IPv4 header has fewer than 20 bytes.
    Cut,
    V4 { source: u32, target: u32 },
    V6 { source: u128, target: u128 },
}

/// The ports of the TCP or UDP header.
#[derive(Clone, Copy, Debug, PartialEq, Eq, Drop)]
pub enum Ports {
    /// No whole IP header announces TCP or UDP, or the packet is a fragment behind the first.
    Absent,
    /// The frame ends inside the TCP or UDP header, or inside an extension header of IPv6.
    Cut,
    Tcp { source: u16, target: u16 },
    Udp { source: u16, target: u16 },
}

/// A frame of fewer than 14 bytes, which has no whole Ethernet header.
#[derive(Clone, Copy, Debug, PartialEq, Eq, Drop)]
pub struct Short;
