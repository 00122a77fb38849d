//! The symbols, and the rules E16 to E18.

ghost use Rattle.std.specs.Prelude.{◌≡◌, ◌+◌, ◌*◌, ◌/◌, ◌<◌, ◌≤◌, ℕ, None, IfSome, IfOk, length, nat_lt};
ghost use Rattle.elf_objects.specs.Breaks.{first_place};
ghost use Rattle.elf_objects.specs.Section.{HasHeaders, section_count, section_past_end};
ghost use Rattle.elf_objects.specs.Names.{HasContents, has_name};
ghost use Rattle.elf_objects.specs.Symbol.{symbol_table, symbol_section, symbol_count, symbol_place, symbol_at, symbol_names, is_bad_symbol_table, bad_symbol_table, is_unnamed_symbol, unnamed_symbol, is_astray, astray_symbol};
ghost use Rattle.elf_objects.specs.Object.{symbols};

use crate::fields::{u16_at, u32_at, u64_at};
use crate::names::names_end;
use crate::section::{
    RESERVED, Section, content_at, entry_size, header_place, is_of_kind, section_at, section_count,
};
use crate::section_kind::{STRTAB, SYMTAB};
use lists::OutOfMemory;
use std::alloc::Global;

/// A symbol, without its visibility.
#[derive(Clone, Copy, Debug, PartialEq, Eq)]
pub struct Symbol {
    /// Where its name begins in the section that holds the symbols' names.
    pub name: u32,
    /// Its type in the low four bits, its binding above.
    pub info: u8,
    pub section: u16,
    pub value: u64,
    pub size: u64,
}

/// The type of a symbol that is a function (STT_FUNC).
const FUNCTION: u8 = 2;

impl Symbol {
    ghost use Rattle.elf_objects.specs.SymbolKind.{is_function};

    /// Whether it names a function.
    pub fn is_function(&self) -> bool
        ensures { result ≡ is_function self.now }
    {
        self.info % 16 == FUNCTION
    }
}

/// The number of the first section of type SYMTAB.
#[tactic(auto, unfolding(crate::specs::Symbol::symbol_table))]
pub(crate) fn symbol_table(file: &[u8]) -> Option<u32>
    requires { HasHeaders file.now }
    ensures table { result ≡ symbol_table file.now }
    ensures known { IfSome result (λ number. number < section_count file.now) }
{
    for number in 0..section_count(file) {
        if is_of_kind(file, SYMTAB, number) {
            return Some(number);
        }
    }
    None
}

/// The symbol table's header, or that of no section.
#[tactic(auto, using(crate::proofs::SymbolTable::symbols_within, crate::proofs::SymbolTable::names_known))]
pub(crate) fn symbol_section(file: &[u8]) -> Section
    requires { HasHeaders file.now }
    ensures section { result ≡ symbol_section file.now }
    ensures within { first_place (section_past_end file.now) ≡ None → result.offset + result.size ≤ length file.now }
    ensures names { HasContents file.now → first_place (bad_symbol_table file.now) ≡ None
        → result.link < section_count file.now }
{
    match symbol_table(file) {
        Some(number) => section_at(file, number),
        None => Section::default(),
    }
}

#[tactic(auto, unfolding(crate::specs::Symbol::is_bad_symbol_table))]
fn is_bad_symbol_table(file: &[u8], number: u32, first: Option<u32>) -> bool
    requires headers { HasHeaders file.now }
    requires number { number < section_count file.now }
    requires first { first ≡ symbol_table file.now }
    ensures { result ≡ is_bad_symbol_table file.now number }
{
    let section = section_at(file, number);
    section.kind == SYMTAB
        && (first.unwrap_or(number) < number
            || entry_size(file, number) != 24
            || section.size % 24 != 0
            || !is_of_kind(file, STRTAB, section.link))
}

/// E16.
pub(crate) fn bad_symbol_table(file: &[u8]) -> Option<u64>
    requires { HasHeaders file.now }
    ensures { result ≡ first_place (bad_symbol_table file.now) }
{
    let first = symbol_table(file);
    for number in 0..section_count(file) {
        if is_bad_symbol_table(file, number, first) {
            return Some(header_place(file, number) as u64);
        }
    }
    None
}

/// The symbol of an index in the symbol table.
pub(crate) fn symbol_at(file: &[u8], table: Section, index: u64) -> Symbol
    requires within { table.offset + table.size ≤ length file.now }
    requires index { index < table.size / 24 }
    ensures { result ≡ symbol_at file.now (table.offset + 24 * index) }
{
    let place = (table.offset + 24 * index) as usize;
    Symbol {
        name: u32_at(file, place),
        info: file[place + 4],
        section: u16_at(file, place + 6),
        value: u64_at(file, place + 8),
        size: u64_at(file, place + 16),
    }
}

/// The table of the symbols' names.
pub(crate) fn symbol_names(file: &[u8]) -> &[u8]
    requires contents { HasContents file.now }
    requires table { first_place (bad_symbol_table file.now) ≡ None }
    ensures { result.now ≡ symbol_names file.now }
{
    content_at(file, symbol_section(file).link)
}

/// Whether no zero byte ends a symbol's name, where they end the names below a place.
#[tactic(auto, unfolding(crate::specs::Symbol::is_unnamed_symbol))]
fn is_unnamed_symbol(file: &[u8], table: Section, index: u64, end: usize) -> bool
    requires table { table ≡ symbol_section file.now }
    requires within { table.offset + table.size ≤ length file.now }
    requires index { index < table.size / 24 }
    requires end { (place : ℕ) → has_name (symbol_names file.now) place ≡ nat_lt place end }
    ensures { result ≡ is_unnamed_symbol file.now index }
{
    end <= symbol_at(file, table, index).name as usize
}

/// E17.
pub(crate) fn unnamed_symbol(file: &[u8]) -> Option<u64>
    requires contents { HasContents file.now }
    requires table { first_place (bad_symbol_table file.now) ≡ None }
    ensures { result ≡ first_place (unnamed_symbol file.now) }
{
    let end = names_end(symbol_names(file));
    let table = symbol_section(file);
    for index in 0..table.size / 24 {
        if is_unnamed_symbol(file, table, index, end) {
            return Some(table.offset + 24 * index);
        }
    }
    None
}

/// Whether a symbol's section is none of so many and no reserved number.
#[tactic(auto, unfolding(crate::specs::Symbol::is_astray))]
fn is_astray(file: &[u8], table: Section, index: u64, sections: u32) -> bool
    requires table { table ≡ symbol_section file.now }
    requires within { table.offset + table.size ≤ length file.now }
    requires index { index < table.size / 24 }
    requires sections { sections ≡ section_count file.now }
    ensures { result ≡ is_astray file.now index }
{
    let section = symbol_at(file, table, index).section;
    sections <= u32::from(section) && section < RESERVED
}

/// E18.
pub(crate) fn astray_symbol(file: &[u8]) -> Option<u64>
    requires { HasContents file.now }
    ensures { result ≡ first_place (astray_symbol file.now) }
{
    let sections = section_count(file);
    let table = symbol_section(file);
    for index in 0..table.size / 24 {
        if is_astray(file, table, index, sections) {
            return Some(table.offset + 24 * index);
        }
    }
    None
}

/// All symbols, in order.
pub(crate) fn read_symbols(alloc: Global, file: &[u8]) -> Result<Vec<Symbol>, OutOfMemory>
    requires { HasContents file.now }
    ensures { IfOk result (λ rows. rows.items ≡ symbols file.now) }
{
    let table = symbol_section(file);
    let count = table.size / 24;
    let mut rows = Vec::with_capacity(alloc, count as usize)?;
    for index in 0..count {
        rows.push(symbol_at(file, table, index))?;
    }
    Ok(rows)
}
