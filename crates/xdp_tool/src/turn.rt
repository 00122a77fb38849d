use xdp_state::Change;

/// What the next line of a walk asks of who calls the walk.
#[derive(Clone, Copy, Debug, PartialEq, Eq)]
pub enum Turn {
    /// This change is the next publication.
    Publish(Change),
    /// The last packet of this processor's hand-ins is handed in.
    HandIn { processor: u32 },
    /// Nothing: the line was refused, or it shows something.
    Again,
    /// The phase has ended, at the barrier of this line or at the script's end.
    End { barrier: Option<u32> },
}
