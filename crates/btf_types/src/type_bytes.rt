//! One type in its bytes, which are given from its first byte to the section's end.

ghost use Rattle.std.specs.Prelude.{◌≡◌, ◌+◌, ◌*◌, ◌<◌, ◌≤◌, ◌^◌, ◌++◌, length, nat_lt, drop, map, OnOk, OnErr};
ghost use Rattle.std.specs.List.{list_all};
ghost use Rattle.btf_types.specs.Kind.{entry_width};
ghost use Rattle.btf_types.specs.TypeBytes as bytes_of;

use crate::kind;
use crate::types::{Part, TypeRow};
use byteorder::{ByteOrder, LittleEndian};
use lists::{List, OutOfMemory};

/// The number in the four bytes from a place on.
#[tactic(auto, unfolding(crate::specs::TypeBytes::word_at))]
pub(crate) fn word_at(bytes: &[u8], place: usize) -> u32
    requires { place + 4 ≤ length bytes.now }
    ensures { result ≡ bytes_of.word_at bytes.now place }
{
    LittleEndian::read_u32(&bytes[place..])
}

#[tactic(auto, unfolding(crate::specs::TypeBytes::kind_of))]
pub(crate) fn kind_of(head: &[u8]) -> u8
    requires { 12 ≤ length head.now }
    ensures { result ≡ bytes_of.kind_of head.now }
{
    (word_at(head, 4) >> 24 & 0x1f) as u8
}

#[tactic(auto, unfolding(crate::specs::TypeBytes::entry_count))]
pub(crate) fn entry_count(head: &[u8]) -> u32
    requires { 12 ≤ length head.now }
    ensures value { result ≡ bytes_of.entry_count head.now }
    ensures small { result < 2 ^ 16 }
{
    word_at(head, 4) & 0xffff
}

/// All bytes of the type.
#[tactic(auto, unfolding(crate::specs::TypeBytes::type_length))]
pub(crate) fn type_len(head: &[u8]) -> usize
    requires { 12 ≤ length head.now }
    ensures value { result ≡ bytes_of.type_length head.now }
    ensures some { 12 ≤ result }
{
    let kind = kind_of(head);
    12 + kind::tail_width(kind) + kind::entry_width(kind) * entry_count(head) as usize
}

/// The bytes behind the type.
pub(crate) fn bytes_behind(head: &[u8]) -> &[u8]
    requires { bytes_of.IsWhole head.now }
    ensures value { result.now ≡ drop (bytes_of.type_length head.now) head.now }
    ensures shorter { length result.now + 12 ≤ length head.now }
{
    &head[type_len(head)..]
}

/// Whether the number at a place of each of the type's entries is below a limit.
#[tactic(auto, using(crate::proofs::Entries::for_loop))]
fn entries_below(head: &[u8], place: usize, limit: u64) -> bool
    requires whole { bytes_of.IsWhole head.now }
    requires inside { place + 4 ≤ entry_width (bytes_of.kind_of head.now) }
    ensures { result
        ≡ list_all (λ entry. nat_lt (bytes_of.word_at entry place) limit) (bytes_of.entries_of head.now) }
{
    let width = kind::entry_width(kind_of(head));
    let mut rest = &head[12..];
    for _ in 0..entry_count(head) {
        if word_at(rest, place) as u64 >= limit {
            return false;
        }
        rest = &rest[width..];
    }
    true
}

/// Whether each name of the type is below a limit.
#[tactic(auto, using(crate::proofs::Entries::for_names), unfolding(crate::specs::TypeBytes::names_of))]
pub(crate) fn names_below(head: &[u8], limit: u64) -> bool
    requires { bytes_of.IsWhole head.now }
    ensures { result ≡ list_all (λ name. nat_lt name limit) (bytes_of.names_of head.now) }
{
    if word_at(head, 0) as u64 >= limit {
        return false;
    }
    !kind::names_entries(kind_of(head)) || entries_below(head, 0, limit)
}

/// Whether each type that the type refers to is below a limit.
#[tactic(auto, using(crate::proofs::Entries::for_references), unfolding(crate::specs::TypeBytes::references_of, crate::specs::Kind::entry_width))]
pub(crate) fn references_below(head: &[u8], limit: u64) -> bool
    requires { bytes_of.IsWhole head.now }
    ensures { result ≡ list_all (λ reference. nat_lt reference limit) (bytes_of.references_of head.now) }
{
    let kind = kind_of(head);
    match kind {
        kind::ARRAY => (word_at(head, 12) as u64) < limit && (word_at(head, 16) as u64) < limit,
        kind::STRUCT | kind::UNION => entries_below(head, 4, limit),
        kind::DATASEC => entries_below(head, 0, limit),
        kind::FUNC_PROTO => (word_at(head, 8) as u64) < limit && entries_below(head, 4, limit),
        _ => !kind::has_target(kind) || (word_at(head, 8) as u64) < limit,
    }
}

/// A member of a structure or a union.
fn member(entry: &[u8]) -> Part
    requires { 12 ≤ length entry.now }
    ensures { result ≡ bytes_of.member entry.now }
{
    Part {
        name: word_at(entry, 0),
        target: word_at(entry, 4),
        place: word_at(entry, 8),
    }
}

/// A variable of a section.
fn variable(entry: &[u8]) -> Part
    requires { 12 ≤ length entry.now }
    ensures { result ≡ bytes_of.variable entry.now }
{
    Part {
        name: 0,
        target: word_at(entry, 0),
        place: word_at(entry, 4),
    }
}

/// An entry of a type of this kind, as a part.
fn part_of(kind: u8, entry: &[u8]) -> Part
    requires { 12 ≤ length entry.now }
    ensures { result ≡ bytes_of.part_of kind entry.now }
{
    if kind == kind::DATASEC {
        variable(entry)
    } else {
        member(entry)
    }
}

/// Puts the members or variables of a type behind the parts.
#[tactic(auto, using(crate::proofs::Entries::for_loop))]
fn push_entries(parts: &mut List<Part>, head: &[u8]) -> Result<(), OutOfMemory>
    requires whole { bytes_of.IsWhole head.now }
    requires width { entry_width (bytes_of.kind_of head.now) ≡ 12 }
    ensures { let part = bytes_of.part_of (bytes_of.kind_of head.now) in
        OnOk result (parts.new ≡ parts.old ++ map part (bytes_of.entries_of head.now)) }
{
    let kind = kind_of(head);
    let mut rest = &head[12..];
    for _ in 0..entry_count(head) {
        parts.push(part_of(kind, rest))?;
        rest = &rest[12..];
    }
    Ok(())
}

/// Puts the parts of a type behind the parts.
#[tactic(auto, using(crate::proofs::Entries::array_fits), unfolding(crate::specs::TypeBytes::parts_of, crate::specs::Kind::entry_width))]
pub(crate) fn push_parts(parts: &mut List<Part>, head: &[u8]) -> Result<(), OutOfMemory>
    requires { bytes_of.IsWhole head.now }
    ensures { OnOk result (parts.new ≡ parts.old ++ bytes_of.parts_of head.now) }
{
    match kind_of(head) {
        kind::ARRAY => parts.push(Part {
            name: 0,
            target: word_at(head, 12),
            place: word_at(head, 20),
        }),
        kind::STRUCT | kind::UNION | kind::DATASEC => push_entries(parts, head),
        _ => Ok(()),
    }
}

/// The row of a type, whose parts stand from number `first` on.
#[tactic(auto, unfolding(crate::specs::TypeBytes::row_of))]
pub(crate) fn row_of(head: &[u8], first: u32, count: u32) -> TypeRow
    requires whole { bytes_of.IsWhole head.now }
    requires count { count ≡ length (bytes_of.parts_of head.now) }
    ensures { result ≡ bytes_of.row_of first head.now }
{
    TypeRow {
        kind: kind_of(head),
        name: word_at(head, 0),
        size_or_target: word_at(head, 8),
        first,
        count,
    }
}
