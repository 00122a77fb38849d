use crate::endian::Endian;
use crate::interface_block::Interface;
use lists::List;

/// What the blocks before a place say for those behind it.
#[derive(Debug, Drop)]
pub struct Progress {
    /// How many bytes those blocks have.
    pub place: u64,
    /// The byte order of the section.
    pub endian: Endian,
    /// Its interfaces so far.
    pub interfaces: List<Interface>,
}
