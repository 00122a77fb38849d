//! The rules of the script by their numbers.

/// The number of a rule.
pub type Rule = u8;

/// A byte is neither printable nor a tab.
pub const BAD_BYTE: Rule = 1;

/// The first word, or the second behind `xdp-loader`, `xdp-filter` or `xdpdump`, isn't known.
pub const UNKNOWN: Rule = 2;

/// Words are missing or too many, or an option is unknown, has no value or stands twice.
pub const BAD_FORM: Rule = 3;

pub const BAD_NUMBER: Rule = 4;

pub const BAD_NAME: Rule = 5;

/// An interface is declared behind a line of another kind.
pub const LATE_INTERFACE: Rule = 6;

/// An interface is declared twice.
pub const SAME_NAME: Rule = 7;

/// There are too many interfaces or queues.
pub const NO_ROOM: Rule = 8;

/// A hand-in's interface isn't declared, or has no such queue.
pub const NO_QUEUE: Rule = 9;

pub const BAD_FRAME: Rule = 10;

/// A choice or a list has a word that is none of its words, or has one twice; a list of names has more than ten, or a name
/// that isn't 1 to 128 bytes.
pub const BAD_CHOICE: Rule = 11;

pub const BAD_ADDRESS: Rule = 12;

/// An unload asks for a member and for all, or for neither.
pub const BAD_UNLOAD: Rule = 13;
