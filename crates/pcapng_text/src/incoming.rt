use lists::Bytes;

/// A packet of a capture: its time in nanoseconds and its captured bytes.
#[derive(Debug, Drop)]
pub struct Incoming {
    pub timestamp: u64,
    pub frame: Bytes,
}
