use crate::mode::Mode;
use chain_order::Kind;
use filter_rules::RuleKey;

/// What one publication changes; numbers only.
#[derive(Clone, Copy, Debug, PartialEq, Eq)]
pub enum Change {
    Attach {
        interface: u32,
        kind: Kind,
        priority: u32,
        rank: u32,
        mask: u8,
        mode: Mode,
    },
    /// The member of this number leaves, and with `clear_rules` all rows.
    Detach {
        interface: u32,
        number: u32,
        clear_rules: bool,
    },
    /// All members of the interface leave.
    DetachAll {
        interface: u32,
    },
    /// The row of the key gets the flags; where there is none it is made.
    SetRule {
        key: RuleKey,
        flags: u8,
    },
    /// The row of the key loses the flags, and goes where none are left.
    ClearRule {
        key: RuleKey,
        flags: u8,
    },
    /// A dump of this setting is on from now.
    DumpOn {
        interface: u32,
        setting: u32,
    },
    DumpOff {
        interface: u32,
    },
}
