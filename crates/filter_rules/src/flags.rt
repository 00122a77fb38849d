//! The bits of a row's flags: a direction and a protocol for a port, a direction for an address.

/// An address's: the rule asks for the sender.
pub const SOURCE: u8 = 1;

/// An address's: the rule asks for the receiver.
pub const TARGET: u8 = 2;

pub const SOURCE_TCP: u8 = 1;

pub const SOURCE_UDP: u8 = 2;

pub const TARGET_TCP: u8 = 4;

pub const TARGET_UDP: u8 = 8;

/// All of an address.
pub const ADDRESS: u8 = SOURCE | TARGET;

/// All of a port.
pub const PORT: u8 = SOURCE_TCP | SOURCE_UDP | TARGET_TCP | TARGET_UDP;
