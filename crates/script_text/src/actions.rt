//! The bits of the actions in a member's mask, each by the action's number.

pub const ABORTED: u8 = 1;

pub const DROP: u8 = 2;

pub const PASS: u8 = 4;

pub const TX: u8 = 8;

pub const REDIRECT: u8 = 16;

pub const ALL: u8 = ABORTED | DROP | PASS | TX | REDIRECT;
