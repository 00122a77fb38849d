use lists::Bytes;

/// How a number stands that was given.
#[derive(Clone, Copy, Debug, PartialEq, Eq)]
pub enum Standing {
    Closed,
    Opened,
    Made,
}

/// A number that was given.
#[derive(Debug, Drop)]
pub struct Entry {
    pub name: Bytes,
    pub standing: Standing,
    /// Of an opened file: its call, from 0.
    pub call: usize,
}
