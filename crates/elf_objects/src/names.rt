//! Tables of names, and the rule E14.

ghost use Rattle.std.specs.Prelude.{◌≡◌, ◌<◌, ◌≤◌, ℕ, ◌==◌, ◌&&◌, not, true, nat_eq, slice_index, length, nat_lt, position};
ghost use Rattle.std.specs.List.{list_all, starts_with};
ghost use Rattle.std.specs.Str.{bytes_eq};
ghost use Rattle.elf_objects.specs.Breaks.{first_place};
ghost use Rattle.elf_objects.specs.Section.{HasHeaders, section_count};
ghost use Rattle.elf_objects.specs.Names.{HasContents, has_name, name_at, section_names, is_unnamed, unnamed_section};

use crate::section::{content_at, header_place, name_section, section_at, section_count};

/// One past the last zero byte: a zero byte ends the names that begin below this place, and no others.
pub(crate) fn names_end(table: &[u8]) -> usize
    ensures { (place : ℕ) → has_name table.now place ≡ nat_lt place result }
{
    let mut end = table.len();
    while end > 0 && table[end - 1] != 0 {
        end -= 1;
    }
    end
}

/// The name that begins at this place, without its zero byte.
pub(crate) fn name_at(table: &[u8], place: usize) -> &[u8]
    requires { place ≤ length table.now }
    ensures { result.now ≡ name_at table.now place }
{
    let rest = &table[place..];
    match zero_place(rest) {
        Some(end) => &rest[..end],
        None => rest,
    }
}

/// Whether the name that begins at this place begins with bytes none of which is 0.
#[tactic(auto, using(crate::proofs::NameFronts::fronts))]
pub(crate) fn names_begin_with(table: &[u8], place: usize, front: &[u8]) -> bool
    requires place { place ≤ length table.now }
    requires text { list_all (λ byte. not (byte == 0)) front.now ≡ true }
    ensures { result ≡ starts_with nat_eq (name_at table.now place) front.now }
{
    table[place..].starts_with(front)
}

/// Whether a zero byte stands at a place.
fn ends_at(bytes: &[u8], place: usize) -> bool
    ensures { result ≡ (nat_lt place (length bytes.now) && (slice_index bytes.now place == 0)) }
{
    place < bytes.len() && bytes[place] == 0
}

/// Whether bytes begin with a name and a zero byte.
fn begin_with_name(bytes: &[u8], name: &[u8]) -> bool
    ensures { result ≡ (starts_with nat_eq bytes.now name.now
        && (nat_lt (length name.now) (length bytes.now) && (slice_index bytes.now (length name.now) == 0))) }
{
    bytes.starts_with(name) && ends_at(bytes, name.len())
}

/// Whether the name that begins at this place, and ends, is this one, in which no byte is 0.
pub(crate) fn names_have(table: &[u8], place: usize, name: &[u8]) -> bool
    requires place { place ≤ length table.now }
    requires ends { has_name table.now place ≡ true }
    requires text { list_all (λ byte. not (byte == 0)) name.now ≡ true }
    ensures { result ≡ bytes_eq (name_at table.now place) name.now }
{
    begin_with_name(&table[place..], name)
}

fn zero_place(bytes: &[u8]) -> Option<usize>
    ensures { result ≡ position (λ b. b == 0) bytes.now }
{
    bytes.iter().position(|b| *b == 0)
}

/// The table of the sections' names.
pub(crate) fn section_names(file: &[u8]) -> &[u8]
    requires { HasContents file.now }
    ensures { result.now ≡ section_names file.now }
{
    content_at(file, name_section(file))
}

/// Whether no zero byte ends a section's name, where they end the names below a place.
#[tactic(auto, unfolding(crate::specs::Names::is_unnamed))]
fn is_unnamed(file: &[u8], number: u32, end: usize) -> bool
    requires headers { HasHeaders file.now }
    requires number { number < section_count file.now }
    requires end { (place : ℕ) → has_name (section_names file.now) place ≡ nat_lt place end }
    ensures { result ≡ is_unnamed file.now number }
{
    end <= section_at(file, number).name as usize
}

/// E14.
pub(crate) fn unnamed_section(file: &[u8]) -> Option<u64>
    requires { HasContents file.now }
    ensures { result ≡ first_place (unnamed_section file.now) }
{
    let end = names_end(section_names(file));
    for number in 0..section_count(file) {
        if is_unnamed(file, number, end) {
            return Some(header_place(file, number) as u64);
        }
    }
    None
}
