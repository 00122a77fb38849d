use crate::mode::Mode;
use filter_rules::{Policy, RuleKey};
use lists::Bytes;

/// A command of the script.
#[derive(Debug, Drop)]
pub enum Command {
    LoaderLoad(LoadWords),
    /// Takes the member of this id off, or all members.
    LoaderUnload {
        interface: Bytes,
        id: Option<u32>,
    },
    /// Shows one interface, or all.
    LoaderStatus {
        interface: Option<Bytes>,
    },
    FilterLoad {
        interface: Bytes,
        mode: Mode,
        policy: Policy,
        features: u8,
    },
    /// With `keep` the rules stay also where the last filter leaves.
    FilterUnload {
        interface: Bytes,
        keep: bool,
    },
    /// Sets the flags of a rule, or with `remove` clears them.
    FilterRule {
        key: RuleKey,
        flags: u8,
        remove: bool,
    },
    FilterStatus,
    /// Turns a dump on, by the number of its setting.
    DumpStart {
        interface: Bytes,
        setting: u32,
    },
    DumpStop {
        interface: Bytes,
    },
}

/// What a load asks for: the first program, in the object of this number, that has the name and whose section has the
/// other, each where it is given. Without a priority or a mask those of its run configuration hold.
#[derive(Debug, Drop)]
pub struct LoadWords {
    pub interface: Bytes,
    pub object: u32,
    pub name: Option<Bytes>,
    pub section: Option<Bytes>,
    pub mode: Mode,
    pub priority: Option<u32>,
    pub mask: Option<u8>,
}
