//! Reading: all rules first, then the types.

ghost use Rattle.std.specs.Prelude.{◌≡◌, ◌<◌, length, None, Some, IfOk, OnOk, Err};
ghost use Rattle.std.specs.List.{flat_map, AllByRecursion};
ghost use Rattle.btf_types.specs.declared.bad_btf.BadBtf.{BadBtf};
ghost use Rattle.btf_types.specs.Breaks.{first_break, RefusesAs};
ghost use Rattle.btf_types.specs.Reading.{rows_from, types_of};
ghost use Rattle.btf_types.specs.Sections.{strings_of, type_section, types_in};
ghost use Rattle.btf_types.specs.TypeBytes.{parts_of, IsWhole};

use crate::bad_btf::{BadBtf, BtfEnd};
use crate::header::{Sections, sections_of};
use crate::link::links_of;
use crate::type_bytes::{bytes_behind, push_parts, row_of};
use crate::types::{Part, TypeRow, Types};
use crate::walk::{count_types, name_break, reference_break};
use lists::{Bytes, List, OutOfMemory};
use std::alloc::Global;

/// The sections of bytes that break no rule, or the first rule that is broken.
fn checked_sections(bytes: &[u8]) -> Result<Sections<'_>, BadBtf>
    ensures types { IfOk result (λ sections. sections.types.now ≡ type_section bytes.now) }
    ensures strings { IfOk result (λ sections. sections.strings.now ≡ strings_of bytes.now) }
    ensures some { OnOk result (0 < length (strings_of bytes.now)) }
    ensures whole { OnOk result (AllByRecursion IsWhole (types_in (type_section bytes.now))) }
    ensures breaks { RefusesAs result (first_break bytes.now) }
{
    let sections = sections_of(bytes)?;
    let count = count_types(sections.types, sections.types_end)?;
    if let Some(bad) = name_break(sections.types, sections.types_end, sections.strings.len()) {
        return Err(bad);
    }
    if let Some(bad) = reference_break(sections.types, sections.types_end, count) {
        return Err(bad);
    }
    Ok(sections)
}

/// The rows of a section's types, and their parts.
#[tactic(auto, using(crate::proofs::TypesIn::in_order))]
fn read_rows(alloc: Global, section: &[u8]) -> Result<(List<TypeRow>, List<Part>), OutOfMemory>
    requires { AllByRecursion IsWhole (types_in section.now) }
    ensures rows { IfOk result (λ read. read.0 ≡ rows_from 0 (types_in section.now)) }
    ensures parts { IfOk result (λ read. read.1 ≡ flat_map parts_of (types_in section.now)) }
{
    let mut rows = List::new(alloc);
    let mut parts = List::new(alloc);
    let mut rest = section;
    while !rest.is_empty() {
        let first = parts.len();
        push_parts(&mut parts, rest)?;
        rows.push(row_of(rest, first, parts.len() - first))?;
        rest = bytes_behind(rest);
    }
    Ok((rows, parts))
}

/// The types that the bytes hold, or the first rule of B1 to B11 that they break.
pub fn read_btf(alloc: Global, bytes: &[u8]) -> Result<Types, BtfEnd>
    ensures whole { OnOk result (first_break bytes.now ≡ None) }
    ensures types { IfOk result (λ types. types ≡ types_of bytes.now) }
    ensures bad { (bad : BadBtf) → result ≡ Err (BtfEnd.BadBtf bad) → first_break bytes.now ≡ Some bad }
{
    let sections = checked_sections(bytes)?;
    let (rows, parts) = read_rows(alloc, sections.types)?;
    let mut strings = Bytes::new(alloc);
    strings.append(sections.strings)?;
    let types = Types::new(alloc, rows, parts, strings);
    let links = links_of(alloc, &types)?;
    Ok(types.with_links(links))
}
