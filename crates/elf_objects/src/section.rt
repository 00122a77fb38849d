//! The section headers, and the rules E13 and E15, which each meets by itself.

ghost use Rattle.std.specs.Prelude.{◌≡◌, ◌+◌, ◌<◌, ◌≤◌, true, None, IfOk, length, nat_lt};
ghost use Rattle.elf_objects.specs.Breaks.{first_place};
ghost use Rattle.elf_objects.specs.Section.{HasHeaders, section_count, name_section, header_place, section, entry_size, is_of_kind, has_bytes, content_of, is_past_end, section_past_end, is_compressed, compressed_section};
ghost use Rattle.elf_objects.specs.Object.{sections};

use crate::fields::{u16_at, u32_at, u64_at};
use crate::section_flag::COMPRESSED;
use crate::section_kind::{NOBITS, NULL};
use lists::OutOfMemory;
use std::alloc::Global;

/// From here on a section's number names no section (SHN_LORESERVE).
pub(crate) const RESERVED: u16 = 0xff00;

/// A section's header, without its address, alignment and entry size.
#[derive(Clone, Copy, Debug, Default, PartialEq, Eq)]
pub struct Section {
    /// Where its name begins in the section that holds the names.
    pub name: u32,
    /// One of the numbers of `section_kind`, or another.
    pub kind: u32,
    /// The bits of `section_flag`, and others.
    pub flags: u64,
    pub offset: u64,
    pub size: u64,
    pub link: u32,
    pub info: u32,
}

pub(crate) fn section_count(file: &[u8]) -> u32
    requires { HasHeaders file.now }
    ensures { result ≡ section_count file.now }
{
    u32::from(u16_at(file, 60))
}

/// The number of the section that holds the sections' names.
pub(crate) fn name_section(file: &[u8]) -> u32
    requires { 64 ≤ length file.now }
    ensures { result ≡ name_section file.now }
{
    u32::from(u16_at(file, 62))
}

/// Where the header of a section begins.
pub(crate) fn header_place(file: &[u8], number: u32) -> usize
    requires headers { HasHeaders file.now }
    requires number { number < section_count file.now }
    ensures place { result ≡ header_place file.now number }
    ensures within { result + 64 ≤ length file.now }
{
    u64_at(file, 40) as usize + 64 * number as usize
}

pub(crate) fn section_at(file: &[u8], number: u32) -> Section
    requires headers { HasHeaders file.now }
    requires number { number < section_count file.now }
    ensures { result ≡ section file.now number }
{
    let place = header_place(file, number);
    Section {
        name: u32_at(file, place),
        kind: u32_at(file, place + 4),
        flags: u64_at(file, place + 8),
        offset: u64_at(file, place + 24),
        size: u64_at(file, place + 32),
        link: u32_at(file, place + 40),
        info: u32_at(file, place + 44),
    }
}

/// How many bytes each entry of a table takes.
pub(crate) fn entry_size(file: &[u8], number: u32) -> u64
    requires headers { HasHeaders file.now }
    requires number { number < section_count file.now }
    ensures { result ≡ entry_size file.now number }
{
    u64_at(file, header_place(file, number) + 56)
}

/// Whether there is a section of this number, and it is of this type.
pub(crate) fn is_of_kind(file: &[u8], kind: u32, number: u32) -> bool
    requires { HasHeaders file.now }
    ensures { result ≡ is_of_kind file.now kind number }
{
    number < section_count(file) && section_at(file, number).kind == kind
}

/// Whether so many bytes from an offset on pass the end of a file of this length.
pub(crate) fn passes_end(length: usize, offset: u64, size: u64) -> bool
    ensures { result ≡ nat_lt length (offset + size) }
{
    (length as u64) < offset || length as u64 - offset < size
}

/// The bytes of a section.
pub(crate) fn content_of(file: &[u8], section: Section) -> &[u8]
    requires { has_bytes section ≡ true → section.offset + section.size ≤ length file.now }
    ensures { result.now ≡ content_of file.now section }
{
    if section.kind == NULL || section.kind == NOBITS {
        return &[];
    }
    let offset = section.offset as usize;
    &file[offset..offset + section.size as usize]
}

/// The bytes of the section of a number.
pub(crate) fn content_at(file: &[u8], number: u32) -> &[u8]
    requires headers { HasHeaders file.now }
    requires contents { first_place (section_past_end file.now) ≡ None }
    requires number { number < section_count file.now }
    ensures { result.now ≡ content_of file.now (section file.now number) }
{
    content_of(file, section_at(file, number))
}

#[tactic(auto, unfolding(crate::specs::Section::is_past_end))]
fn is_past_end(file: &[u8], number: u32) -> bool
    requires headers { HasHeaders file.now }
    requires number { number < section_count file.now }
    ensures { result ≡ is_past_end file.now number }
{
    let section = section_at(file, number);
    section.kind != NULL
        && section.kind != NOBITS
        && passes_end(file.len(), section.offset, section.size)
}

/// E13.
pub(crate) fn section_past_end(file: &[u8]) -> Option<u64>
    requires { HasHeaders file.now }
    ensures { result ≡ first_place (section_past_end file.now) }
{
    for number in 0..section_count(file) {
        if is_past_end(file, number) {
            return Some(header_place(file, number) as u64);
        }
    }
    None
}

#[tactic(auto, unfolding(crate::specs::Section::is_compressed))]
fn is_compressed(file: &[u8], number: u32) -> bool
    requires headers { HasHeaders file.now }
    requires number { number < section_count file.now }
    ensures { result ≡ is_compressed file.now number }
{
    section_at(file, number).flags & COMPRESSED != 0
}

/// E15.
pub(crate) fn compressed_section(file: &[u8]) -> Option<u64>
    requires { HasHeaders file.now }
    ensures { result ≡ first_place (compressed_section file.now) }
{
    for number in 0..section_count(file) {
        if is_compressed(file, number) {
            return Some(header_place(file, number) as u64);
        }
    }
    None
}

/// All sections, in order.
pub(crate) fn read_sections(alloc: Global, file: &[u8]) -> Result<Vec<Section>, OutOfMemory>
    requires { HasHeaders file.now }
    ensures { IfOk result (λ rows. rows.items ≡ sections file.now) }
{
    let count = section_count(file);
    let mut rows = Vec::with_capacity(alloc, count as usize)?;
    for number in 0..count {
        rows.push(section_at(file, number))?;
    }
    Ok(rows)
}
