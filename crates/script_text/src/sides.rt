//! The bits of a program's two sides.

/// A packet enters the program.
pub const ENTRY: u8 = 1;

/// A packet leaves the program.
pub const EXIT: u8 = 2;
