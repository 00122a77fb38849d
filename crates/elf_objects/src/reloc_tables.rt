//! The relocations of a file, each read once. Sections of relocations may overlap, so a section's relocations are
//! a part of a table that all sections share whose places leave the same remainder by 16.

ghost use Rattle.std.specs.Prelude.{◌≡◌, ◌+◌, ◌*◌, ◌/◌, ◌%◌, ◌<◌, ◌≤◌, [], length, take, drop, IfOk, slice_index_or};
ghost use Rattle.std.specs.List.{list_any};
ghost use Rattle.elf_objects.specs.Object.{sections};
ghost use Rattle.elf_objects.specs.Reloc.{relocs_at};
ghost use Rattle.elf_objects.specs.RelocTables.{has_relocs_from, reloc_table, reloc_tables};

use crate::reloc::{Reloc, reloc_at};
use crate::section::Section;
use crate::section_kind::REL;
use lists::OutOfMemory;
use std::alloc::Global;
use std::marker::Model;

/// By remainder.
#[derive(Debug, Drop)]
pub(crate) struct RelocTables {
    tables: Vec<Vec<Reloc>>,
}

impl Model for RelocTables {
    ghost use Rattle.std.specs.Prelude.{List, map};
    ghost use Rattle.elf_objects.specs.declared.reloc.Reloc.{Reloc};

    ghost Value = { List (List Reloc) };

    ghost view = { λ t. map (λ table. table.items) t.tables.items };
}

/// So many relocations, one after another.
#[tactic(auto, unfolding(crate::specs::Reloc::relocs_at))]
fn relocs_at(
    alloc: Global,
    file: &[u8],
    place: usize,
    count: usize,
) -> Result<Vec<Reloc>, OutOfMemory>
    requires { place + 16 * count ≤ length file.now }
    ensures { IfOk result (λ relocs. relocs.items ≡ relocs_at file.now place count) }
{
    let mut relocs = Vec::with_capacity(alloc, count)?;
    for index in 0..count {
        relocs.push(reloc_at(file, place + 16 * index))?;
    }
    Ok(relocs)
}

/// Whether a section's relocations begin at a place with this remainder.
fn are_held(rows: &[Section], remainder: u64) -> bool
    ensures { result ≡ list_any (has_relocs_from remainder) rows.now }
{
    rows.iter().any(|section| section.kind == REL && section.offset % 16 == remainder)
}

/// The relocations at the places with a remainder, if a section holds any of them.
#[tactic(auto, unfolding(crate::specs::RelocTables::reloc_table))]
fn reloc_table(
    alloc: Global,
    file: &[u8],
    rows: &[Section],
    remainder: u64,
) -> Result<Vec<Reloc>, OutOfMemory>
    requires rows { rows.now ≡ sections file.now }
    requires remainder { remainder < 16 }
    requires header { 64 ≤ length file.now }
    ensures { IfOk result (λ relocs. relocs.items ≡ reloc_table file.now remainder) }
{
    let first = remainder as usize;
    let count = if are_held(rows, remainder) {
        (file.len() - first) / 16
    } else {
        0
    };
    relocs_at(alloc, file, first, count)
}

impl RelocTables {
    pub(crate) fn read(alloc: Global, file: &[u8], rows: &[Section]) -> Result<Self, OutOfMemory>
        requires rows { rows.now ≡ sections file.now }
        requires header { 64 ≤ length file.now }
        ensures { IfOk result (λ tables. tables ≡ reloc_tables file.now) }
    {
        let mut tables = Vec::with_capacity(alloc, 16)?;
        for remainder in 0..16 {
            tables.push(reloc_table(alloc, file, rows, remainder)?)?;
        }
        Ok(RelocTables { tables })
    }

    /// So many relocations from a place on.
    pub(crate) fn slice(&self, place: u64, count: u64) -> &[Reloc]
        requires tables { length self.now ≡ 16 }
        requires within { place / 16 + count ≤ length (slice_index_or self.now (place % 16) []) }
        ensures { result.now ≡ take count (drop (place / 16) (slice_index_or self.now (place % 16) [])) }
    {
        let table = self.tables[(place % 16) as usize].as_slice();
        let first = (place / 16) as usize;
        &table[first..first + count as usize]
    }
}
