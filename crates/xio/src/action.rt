ghost use Rattle.std.specs.Prelude.{◌≡◌, ◌<◌};

/// What a packet program answers, with the numbers of the kernel's `enum xdp_action`.
#[derive(Clone, Copy, Debug, PartialEq, Eq)]
pub enum Action {
    Aborted,
    Drop,
    Pass,
    Tx,
    Redirect,
}

impl Action {
    ghost use Rattle.xio.specs.Action.{number, has_action};

    /// The kernel's number of the action.
    pub fn number(self) -> u8
        ensures value { result ≡ number self }
        ensures below { result < 5 }
    {
        self as u8
    }

    /// Whether bit k of the mask is set, k being the action's number.
    pub fn is_in(self, mask: u8) -> bool
        ensures { result ≡ has_action mask self }
    {
        (mask >> self.number()) & 1 == 1
    }
}
