//! The bits of a filter's features: which headers it asks its rows about.

pub const TCP: u8 = 1;

pub const UDP: u8 = 2;

pub const IPV4: u8 = 4;

pub const IPV6: u8 = 8;

pub const ETHERNET: u8 = 16;

/// Those that ask for ports.
pub const PORTS: u8 = TCP | UDP;

/// Those that ask for what an IP packet says.
pub const IP: u8 = PORTS | IPV4 | IPV6;

pub const ALL: u8 = IP | ETHERNET;
