/// What an instruction leads to: the slot that is next, the end of the run, or a fault.
#[derive(Clone, Copy, Debug, PartialEq, Eq)]
pub(crate) enum Flow {
    Next(i64),
    End,
    Fault,
}

/// How a run ended, and how many instructions were counted where that isn't the budget.
#[derive(Clone, Copy, Debug, PartialEq, Eq)]
pub(crate) enum Halt {
    Ended { used: u32 },
    Faulted { used: u32 },
    Spent,
}
