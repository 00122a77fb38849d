use xdp_state::Change;

/// What the history logs: a change that is about to be published, or that the last one of these is.
#[derive(Clone, Copy, Debug, PartialEq, Eq)]
pub enum Entry {
    Draft(Change),
    Commit,
}
