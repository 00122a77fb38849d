ghost use Rattle.std.specs.Prelude.{◌≡◌, []};

use crate::mode::Mode;
use chain_order::Chain;

/// What is attached to an interface: its members in the order in which they run, and the mode of all of them.
#[derive(Debug, Drop)]
pub(crate) struct Hook {
    pub chain: Chain,
    pub mode: Mode,
}

impl Hook {
    /// The hook of an interface without members, whose mode doesn't matter.
    pub fn new() -> Self
        ensures { result ≡ record { chain = []; mode = Mode.Native } }
    {
        Hook {
            chain: Chain::new(),
            mode: Mode::Native,
        }
    }

    /// The same members in the same mode.
    pub fn copy(&self) -> Self
        ensures { result ≡ self.now }
    {
        Hook {
            chain: self.chain.copy(),
            mode: self.mode,
        }
    }
}
