use crate::incoming::Incoming;

/// What the next block brings.
#[derive(Drop)]
pub(crate) enum Advance {
    /// There is none: the input ends.
    End,
    Skipped,
    Packet(Incoming),
}
