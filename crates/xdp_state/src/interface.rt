use lists::{Bytes, List};

/// An interface of the script, with the number of its receive queues.
#[derive(Debug, Drop)]
pub struct Interface {
    pub name: Bytes,
    pub queues: u32,
}

/// The interfaces in order of declaration, which numbers them from 0.
pub type InterfaceList = List<Interface>;
