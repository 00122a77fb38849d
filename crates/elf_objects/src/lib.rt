//! Relocatable BPF objects: ELF64, little endian, as compilers make them of C.
//! `read_object` refuses a damaged file by the first rule that it breaks; of any other file it shows exactly
//! the sections, symbols, relocations, names and contents.
#![tactic(auto)]

mod bad_elf;
mod fields;
mod header;
mod names;
mod object;
mod reloc;
mod reloc_marks;
mod reloc_tables;
mod section;
pub mod section_flag;
pub mod section_kind;
mod symbol;

pub use bad_elf::{BadElf, ObjectEnd};
pub use object::{Object, read_object};
pub use reloc::Reloc;
pub use section::Section;
pub use symbol::Symbol;
