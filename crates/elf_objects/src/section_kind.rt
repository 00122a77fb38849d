//! The types of sections that the readers know, by their numbers in the format (System V ABI, "Section Header").

/// SHT_NULL: no section.
pub const NULL: u32 = 0;

/// SHT_PROGBITS: bytes whose meaning is the program's own, as instructions and data.
pub const PROGBITS: u32 = 1;

/// SHT_SYMTAB: the symbols.
pub const SYMTAB: u32 = 2;

/// SHT_STRTAB: names.
pub const STRTAB: u32 = 3;

/// SHT_RELA: relocations with addends.
pub const RELA: u32 = 4;

/// SHT_NOBITS: a size without bytes in the file.
pub const NOBITS: u32 = 8;

/// SHT_REL: relocations without addends.
pub const REL: u32 = 9;
