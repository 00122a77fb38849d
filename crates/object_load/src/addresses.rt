//! The numbers that take the places of symbols in code.

ghost use Rattle.std.specs.Prelude.{◌≡◌, ◌<◌, ◌≤◌, ◌+◌, ◌/◌, ◌==◌, ℕ, pos, ◌+ℤ◌, ◌-ℤ◌, ◌≤ℤ◌, ◌<ℤ◌, List, length, position};
ghost use Rattle.std.specs.Str.{bytes_eq};
ghost use Rattle.elf_objects.specs.Object.{symbol_name, symbols};
ghost use Rattle.map_store.specs.Initial.{AreMakeable};
ghost use Rattle.run_config.specs.Maps.{specs_of};
ghost use Rattle.object_load.specs.KnownMaps.{AreKnown};
ghost use Rattle.object_load.specs.Layout.{IsLayout};
ghost use Rattle.object_load.specs.Linking as of_code;

use crate::known_maps::KnownMaps;
use crate::layout::Layout;
use bpf_insn::Insn;
use elf_objects::{Object, Reloc, Symbol};
use run_config::NamedMap;

/// What stands for map 0 in code.
const REFERENCES_START: i32 = 0x7000_0000;

/// Where the values of map 0 begin, and how far the maps stand apart.
const VALUES_START: i32 = 0x4000_0000;

const MAP_ROOM: i32 = 0x0100_0000;

/// The types of relocations that are known: R_BPF_64_64 and R_BPF_64_32.
const WIDE: u32 = 1;

const CALLED: u32 = 10;

const WIDE_LOAD: u8 = 0x18;

const CALL: u8 = 0x85;

/// Whether an instruction is a wide load of a number.
#[tactic(auto, unfolding(crate::specs::Linking::is_wide_load))]
pub(crate) fn is_wide_load(insn: &Insn) -> bool
    ensures { result ≡ of_code.is_wide_load insn.now }
{
    insn.opcode == WIDE_LOAD && insn.source == 0
}

/// Whether an instruction calls a function of the program.
#[tactic(auto, unfolding(crate::specs::Linking::is_local_call))]
pub(crate) fn is_local_call(insn: &Insn) -> bool
    ensures { result ≡ of_code.is_local_call insn.now }
{
    insn.opcode == CALL && insn.source == 1
}

/// The place of the first map of a name.
fn map_named(maps: &[NamedMap], name: &[u8]) -> Option<usize>
    ensures { result ≡ position (λ map. bytes_eq map.name name.now) maps.now }
{
    maps.iter().position(|map| map.name.as_slice() == name)
}

/// The number of the map of a symbol's name, which is looked up once for each place of a name.
fn map_number(
    object: &Object<'_>,
    maps: &[NamedMap],
    index: u32,
    known: &mut KnownMaps,
) -> Option<u32>
    requires index { index < length (symbols object.now) }
    requires few { length maps.now ≤ 32 }
    requires known { AreKnown object.now maps.now known.old }
    ensures number { result ≡ position (λ map. bytes_eq map.name (symbol_name object.now index)) maps.now }
    ensures known { AreKnown object.now maps.now known.new }
{
    let place = object.symbol(index).name;
    if let Some(number) = known.at(place) {
        return Some(number);
    }
    let number = map_named(maps, object.symbol_name(index))? as u32;
    known.keep(place, number);
    Some(number)
}

/// What stands for the map of a symbol's name.
#[tactic(auto, unfolding(crate::specs::Linking::map_reference))]
fn map_reference(
    object: &Object<'_>,
    maps: &[NamedMap],
    index: u32,
    known: &mut KnownMaps,
) -> Option<i32>
    requires index { index < length (symbols object.now) }
    requires few { length maps.now ≤ 32 }
    requires known { AreKnown object.now maps.now known.old }
    ensures reference { result ≡ of_code.map_reference object.now maps.now index }
    ensures known { AreKnown object.now maps.now known.new }
{
    let number = map_number(object, maps, index, known)?;
    Some(REFERENCES_START + number as i32)
}

/// The address of a byte of a map's only value, or that of the byte behind its last.
#[tactic(auto, unfolding(crate::specs::Linking::value_address))]
fn value_address(number: usize, map: &NamedMap, offset: i128) -> Option<i32>
    requires number { number < 32 }
    requires size { map.now.spec.value_size ≤ 65536 }
    ensures { result ≡ of_code.value_address number map.now offset }
{
    if offset < 0 || offset > i128::from(map.spec.value_size) {
        return None;
    }
    Some(VALUES_START + number as i32 * MAP_ROOM + offset as i32)
}

/// The place of a section among others.
fn place_of(sections: &[u32], section: u32) -> Option<usize>
    ensures { result ≡ position (λ number. number == section) sections.now }
{
    sections.iter().position(|number| *number == section)
}

/// The address of bytes of a section of constants.
#[tactic(auto, unfolding(crate::specs::Linking::constant_address))]
fn constant_address(maps: &[NamedMap], constants: &[u32], symbol: Symbol, imm: i32) -> Option<i32>
    requires makeable { AreMakeable (specs_of maps.now) }
    requires few { length constants.now ≤ length maps.now }
    ensures { result ≡ of_code.constant_address maps.now constants.now symbol imm }
{
    let place = place_of(constants, u32::from(symbol.section))?;
    let number = maps.len() - constants.len() + place;
    let offset = i128::from(symbol.value) + i128::from(imm);
    value_address(number, &maps[number], offset)
}

/// Whether a symbol is in a section of maps.
#[tactic(auto, using(crate::proofs::Counts::sections_counted), unfolding(crate::specs::Linking::is_in_maps, crate::specs::Sections::has_name))]
fn is_in_maps(object: &Object<'_>, symbol: Symbol) -> bool
    ensures { result ≡ of_code.is_in_maps object.now symbol }
{
    let section = u32::from(symbol.section);
    section < object.section_count() && object.section_is(section, b".maps")
}

/// The number that takes the place of a symbol in a wide load.
#[tactic(auto, unfolding(crate::specs::Linking::address))]
fn address(
    object: &Object<'_>,
    layout: &Layout,
    maps: &[NamedMap],
    index: u32,
    imm: i32,
    known: &mut KnownMaps,
) -> Option<i32>
    requires index { index < length (symbols object.now) }
    requires known { AreKnown object.now maps.now known.old }
    requires layout { IsLayout object.now layout.now }
    requires makeable { AreMakeable (specs_of maps.now) }
    requires few { length layout.now.constants ≤ length maps.now }
    ensures address { result ≡ of_code.address object.now maps.now index imm }
    ensures known { AreKnown object.now maps.now known.new }
{
    let symbol = object.symbol(index);
    if is_in_maps(object, symbol) {
        return map_reference(object, maps, index, known);
    }
    constant_address(maps, layout.constants.as_slice(), symbol, imm)
}

/// The slot of `.text` that a symbol and an immediate name.
fn target_slot(symbol: Symbol, imm: i32) -> i64
    ensures { result ≡ of_code.target_slot symbol imm }
{
    (symbol.value / 8) as i64 + i64::from(imm) + 1
}

/// How far a slot of `.text`, which stands behind so many others, is from the slot behind a call.
fn span(own: u32, target: i64, slot: u32) -> i32
    requires first { pos 0 ≤ℤ target }
    requires last { target <ℤ pos 65536 }
    requires own { own ≤ 65536 }
    requires slot { slot ≤ 65536 }
    ensures { result ≡ ((pos own +ℤ target) -ℤ pos slot) -ℤ pos 1 }
{
    (i64::from(own) + target - i64::from(slot) - 1) as i32
}

/// How far a function of `.text` is from the slot behind a call.
#[tactic(auto, unfolding(crate::specs::Linking::distance))]
fn distance(layout: &Layout, own: u32, symbol: Symbol, slot: u32, imm: i32) -> Option<i32>
    requires own { own + layout.now.text_size / 8 ≤ 65536 }
    requires slot { slot ≤ 65536 }
    ensures { (file : List ℕ) → IsLayout file layout.now → result ≡ of_code.distance file own symbol slot imm }
{
    if layout.text != Some(u32::from(symbol.section)) || symbol.value % 8 != 0 {
        return None;
    }
    let target = target_slot(symbol, imm);
    if target < 0 || target >= (layout.text_size / 8) as i64 {
        return None;
    }
    Some(span(own, target, slot))
}

/// The new immediate of an instruction that a relocation changes.
#[tactic(auto, unfolding(crate::specs::Linking::immediate))]
pub(crate) fn immediate(
    object: &Object<'_>,
    layout: &Layout,
    maps: &[NamedMap],
    own: u32,
    slot: u32,
    reloc: &Reloc,
    insn: &Insn,
    known: &mut KnownMaps,
) -> Option<i32>
    requires symbol { reloc.now.symbol < length (symbols object.now) }
    requires known { AreKnown object.now maps.now known.old }
    requires layout { IsLayout object.now layout.now }
    requires makeable { AreMakeable (specs_of maps.now) }
    requires few { length layout.now.constants ≤ length maps.now }
    requires own { own + layout.now.text_size / 8 ≤ 65536 }
    requires slot { slot ≤ 65536 }
    ensures immediate { result ≡ of_code.immediate object.now maps.now own slot reloc.now insn.now }
    ensures known { AreKnown object.now maps.now known.new }
{
    if reloc.kind == WIDE && is_wide_load(insn) {
        address(object, layout, maps, reloc.symbol, insn.imm, known)
    } else if reloc.kind == CALLED && is_local_call(insn) {
        distance(layout, own, object.symbol(reloc.symbol), slot, insn.imm)
    } else {
        None
    }
}
