ghost use Rattle.std.specs.Prelude.{◌≡◌};
ghost use Rattle.filter_rules.specs.Policy.{hit_action, miss_action};

use xio::Action;

/// What the rows of a filter are: packets to drop, or the only packets to pass.
#[derive(Clone, Copy, Debug, PartialEq, Eq)]
pub enum Policy {
    Allow,
    Deny,
}

impl Policy {
    /// The action of a packet that a row names.
    pub fn hit(self) -> Action
        ensures { result ≡ hit_action self }
    {
        match self {
            Policy::Allow => Action::Drop,
            Policy::Deny => Action::Pass,
        }
    }

    /// The action of a packet that no row names.
    pub fn miss(self) -> Action
        ensures { result ≡ miss_action self }
    {
        match self {
            Policy::Allow => Action::Pass,
            Policy::Deny => Action::Drop,
        }
    }
}
