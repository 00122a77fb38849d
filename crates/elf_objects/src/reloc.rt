//! The relocations, and the rules E19 and E20.

ghost use Rattle.std.specs.Prelude.{◌≡◌, ◌+◌, ◌<◌, ◌≤◌, length};
ghost use Rattle.elf_objects.specs.Breaks.{earlier, first_place};
ghost use Rattle.elf_objects.specs.Section.{HasHeaders, section_count};
ghost use Rattle.elf_objects.specs.Names.{HasContents};
ghost use Rattle.elf_objects.specs.Symbol.{symbol_count};
ghost use Rattle.elf_objects.specs.RelocMarks.{AreClean};
ghost use Rattle.elf_objects.specs.Reloc.{reloc_at, lacks_symbol, is_bad_reloc_table, bad_reloc_table, reloc_tests, missing_symbol};

use crate::fields::{u32_at, u64_at};
use crate::reloc_marks::{clean_marks, is_clean, relocs_left};
use crate::section::{entry_size, header_place, is_of_kind, section_at, section_count};
use crate::section_flag::EXECINSTR;
use crate::section_kind::{REL, RELA, SYMTAB};
use crate::symbol::symbol_section;

/// A relocation: what is changed stands at an offset in the section that the relocations are for.
#[derive(Clone, Copy, Debug, PartialEq, Eq)]
pub struct Reloc {
    pub offset: u64,
    pub symbol: u32,
    pub kind: u32,
}

pub(crate) fn reloc_at(file: &[u8], place: usize) -> Reloc
    requires { place + 16 ≤ length file.now }
    ensures { result ≡ reloc_at file.now place }
{
    Reloc {
        offset: u64_at(file, place),
        symbol: u32_at(file, place + 12),
        kind: u32_at(file, place + 8),
    }
}

#[tactic(auto, unfolding(crate::specs::Reloc::is_bad_reloc_table))]
fn is_bad_reloc_table(file: &[u8], number: u32) -> bool
    requires headers { HasHeaders file.now }
    requires number { number < section_count file.now }
    ensures { result ≡ is_bad_reloc_table file.now number }
{
    let section = section_at(file, number);
    let names_section = section.info < section_count(file);
    (section.kind == REL
        && (entry_size(file, number) != 16
            || section.size % 16 != 0
            || !is_of_kind(file, SYMTAB, section.link)
            || !names_section))
        || (section.kind == RELA
            && names_section
            && section_at(file, section.info).flags & EXECINSTR != 0)
}

/// E19.
pub(crate) fn bad_reloc_table(file: &[u8]) -> Option<u64>
    requires { HasHeaders file.now }
    ensures { result ≡ first_place (bad_reloc_table file.now) }
{
    for number in 0..section_count(file) {
        if is_bad_reloc_table(file, number) {
            return Some(header_place(file, number) as u64);
        }
    }
    None
}

/// Whether the symbol of the relocation at a place is none of so many.
#[tactic(auto, unfolding(crate::specs::Reloc::lacks_symbol))]
pub(crate) fn lacks_symbol(file: &[u8], place: u64, symbols: u64) -> bool
    requires place { place + 16 ≤ length file.now }
    requires symbols { symbols ≡ symbol_count file.now }
    ensures { result ≡ lacks_symbol file.now place }
{
    symbols <= u64::from(reloc_at(file, place as usize).symbol)
}

/// Where the first relocation of a section stands whose symbol is none of so many. Blocks that are known to have none are passed over.
fn missing_symbol_in(file: &[u8], number: u32, symbols: u64, marks: &[bool]) -> Option<u64>
    requires contents { HasContents file.now }
    requires number { number < section_count file.now }
    requires symbols { symbols ≡ symbol_count file.now }
    requires marks { AreClean file.now marks.now }
    ensures { result ≡ first_place (reloc_tests file.now number) }
{
    let section = section_at(file, number);
    if section.kind != REL {
        return None;
    }
    let mut index = 0;
    while index < section.size / 16 {
        let place = section.offset + 16 * index;
        if is_clean(marks, place) {
            index += relocs_left(place);
            continue;
        }
        if lacks_symbol(file, place, symbols) {
            return Some(place);
        }
        index += 1;
    }
    None
}

/// The lesser of two places, where there are two.
fn earlier(place: Option<u64>, other: Option<u64>) -> Option<u64>
    ensures { result ≡ earlier place other }
{
    match (place, other) {
        (None, other) => other,
        (place, None) => place,
        (Some(place), Some(other)) => Some(place.min(other)),
    }
}

/// E20.
#[tactic(auto, unfolding(crate::specs::Reloc::missing_symbol))]
pub(crate) fn missing_symbol(file: &[u8]) -> Option<u64>
    requires { HasContents file.now }
    ensures { result ≡ first_place (missing_symbol file.now) }
{
    let symbols = symbol_section(file).size / 24;
    let marks = clean_marks(file, symbols);
    let mut least = None;
    for number in 0..section_count(file) {
        least = earlier(least, missing_symbol_in(file, number, symbols, &marks));
    }
    least
}
