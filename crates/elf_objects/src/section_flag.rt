//! The flags of sections that the readers know, by their bits in the format (System V ABI, "Section Header").

/// SHF_EXECINSTR: the bytes are instructions.
pub const EXECINSTR: u64 = 4;

/// SHF_COMPRESSED: the bytes are compressed.
pub const COMPRESSED: u64 = 0x800;
