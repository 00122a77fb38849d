ghost use Rattle.std.specs.Prelude.{◌≡◌};
ghost use Rattle.filter_rules.specs.Rule.{all_flags, answers};

use crate::flags;

/// What a rule's value is.
#[derive(Clone, Copy, Debug, PartialEq, Eq, Hash)]
pub enum RuleKind {
    Port,
    Ip4,
    Ip6,
    Ether,
}

impl RuleKind {
    /// All flags that a rule of this kind can have.
    pub fn all_flags(self) -> u8
        ensures { result ≡ all_flags self }
    {
        match self {
            RuleKind::Port => flags::PORT,
            RuleKind::Ip4 | RuleKind::Ip6 | RuleKind::Ether => flags::ADDRESS,
        }
    }
}

/// A port or an address that rules speak of; an address is the number of its bytes, the first one highest.
#[derive(Clone, Copy, Debug, PartialEq, Eq, Hash)]
pub struct RuleKey {
    pub kind: RuleKind,
    pub value: u128,
}

impl RuleKey {
    /// The key of a port.
    pub fn port(number: u16) -> Self
        ensures { result ≡ record { kind = RuleKind.Port; value = number } }
    {
        RuleKey {
            kind: RuleKind::Port,
            value: u128::from(number),
        }
    }

    /// The key of an IPv4 address.
    pub fn ip4(address: u32) -> Self
        ensures { result ≡ record { kind = RuleKind.Ip4; value = address } }
    {
        RuleKey {
            kind: RuleKind::Ip4,
            value: u128::from(address),
        }
    }

    /// The key of an IPv6 address.
    pub fn ip6(address: u128) -> Self
        ensures { result ≡ record { kind = RuleKind.Ip6; value = address } }
    {
        RuleKey {
            kind: RuleKind::Ip6,
            value: address,
        }
    }

    /// The key of an Ethernet address.
    pub fn ether(address: u64) -> Self
        ensures { result ≡ record { kind = RuleKind.Ether; value = address } }
    {
        RuleKey {
            kind: RuleKind::Ether,
            value: u128::from(address),
        }
    }
}

/// A row of the filter; `flags` names the bits of its flags. The number is that of the publication that made the row.
#[derive(Clone, Copy, Debug, PartialEq, Eq)]
pub struct RuleRow {
    pub key: RuleKey,
    pub flags: u8,
    pub number: u32,
}

impl RuleRow {
    /// Whether it has the key and one of the flags.
    pub fn answers(&self, key: RuleKey, flags: u8) -> bool
        ensures { result ≡ answers key flags self.now }
    {
        self.key == key && self.flags & flags != 0
    }
}
