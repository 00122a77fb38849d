use pcapng_text::PacketOptions;

/// A packet at one program: as it enters, or as it leaves.
#[derive(Clone, Copy, Debug)]
pub struct Point<'a> {
    pub interface: &'a [u8],
    /// The program's name.
    pub name: &'a [u8],
    /// Whether the packet leaves.
    pub exit: bool,
    /// The most bytes that are kept of a packet.
    pub snap: u32,
    /// In nanoseconds.
    pub timestamp: u64,
    /// The packet's length here, of which not all bytes may be kept.
    pub length: u32,
    pub kept: &'a [u8],
    pub options: PacketOptions,
}
