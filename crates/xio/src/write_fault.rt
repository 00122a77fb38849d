/// A write failed; the sink took the first `written` bytes before.
#[derive(Clone, Copy, Debug, PartialEq, Eq)]
pub struct WriteFault {
    pub written: u64,
}
