use xio::Action;

/// Why a run ended.
#[derive(Clone, Copy, Debug, PartialEq, Eq)]
pub enum Cause {
    /// The first function's EXIT, with an action in r0.
    Exit,
    /// An instruction that can't be carried out, or none at the next slot.
    Fault,
    /// The budget is spent.
    Budget,
    /// The first function's EXIT, with a number above 4 in the low half of r0.
    BadAction,
}

/// A run's answer. `target` is where a redirect goes, and `used` how many instructions were counted.
#[derive(Clone, Copy, Debug, PartialEq, Eq)]
pub struct RunEnd {
    pub action: Action,
    pub cause: Cause,
    pub target: u32,
    pub used: u32,
}
